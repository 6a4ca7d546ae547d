//! The interleave that sets neighbouring dibits apart.
ghost use Rattle.std.specs.Prelude.{◌≡◌, ◌≤◌};
ghost use Rattle.codes.specs.Interleaving.{rows_of, place_of, item_at, Bijection};

/// The interleave of 100 dibits, of five rows, and of 180, of nine.
#[derive(Clone, Copy, PartialEq, Eq)]
pub enum Interleave {
    Five = 5,
    Nine = 9,
}

/// How many places a row has.
pub const COLUMNS: usize = 20;

/// The place of item `i`. The rows are a constant since a division by a constant is a multiplication.
fn place_of<const ROWS: usize>(i: usize) -> usize
    requires { (2 ≤ ROWS) × (ROWS ≤ 20) }
    ensures { result ≡ place_of ROWS i }
{
    COLUMNS * (i % ROWS) + i / ROWS
}

impl Interleave {
    /// How many rows there are.
    pub fn rows(self) -> usize
        ensures { result ≡ rows_of self }
    {
        self as usize
    }

    /// The place of dibit `i`.
    pub fn place(self, i: usize) -> usize
        ensures value { result ≡ place_of (rows_of self) i }
        ensures law { Bijection (rows_of self) }
    {
        match self {
            Interleave::Five => place_of::<5>(i),
            Interleave::Nine => place_of::<9>(i),
        }
    }

    /// The dibit at place `j`.
    pub fn item(self, j: usize) -> usize
        ensures value { result ≡ item_at (rows_of self) j }
        ensures law { Bijection (rows_of self) }
    {
        self.rows() * (j % COLUMNS) + j / COLUMNS
    }
}
