//! Why a line is no request.

use thiserror::Error;

/// A line is none of the grammar.
#[derive(Debug, Drop, Error)]
#[error("no request is written so")]
pub struct BadLine;
