//! The two disks of a pair.
ghost use Rattle.std.specs.Prelude.{◌≡◌};
ghost use Rattle.liq_disk_pair.specs.Sides.{other};

/// One of two disks. The left one has the journal's odd generations, the right one the even ones.
#[derive(Clone, Copy)]
pub enum Side {
    Left,
    Right,
}

impl Side {
    /// The side of the other disk.
    pub fn other(self) -> Side
        ensures { result ≡ other self }
    {
        match self {
            Side::Left => Side::Right,
            Side::Right => Side::Left,
        }
    }
}
