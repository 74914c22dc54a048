//! The one answer of a call that met a fault. What the fault was only the system knows.

/// The outside met a fault: the count of the object's faults rose in this call, or stands at its
/// last value.
#[derive(Clone, Copy)]
pub struct Failed;
