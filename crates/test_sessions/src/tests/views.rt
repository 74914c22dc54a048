//! Published views: a row of looks, and finders that look from threads while versions are
//! published.

mod at_once;
mod row;
