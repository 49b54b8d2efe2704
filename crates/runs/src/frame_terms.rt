// What all frame terms of a level come to, by division or hybrid, and acceptance by division.
// Knows: crate definitions' Lifting, through crate specs' Vectors.
// The vectors lifted are kept in one lent slice: first the end of each vector's rows, from word 128 on the rows.

// The rows that the vectors have with this one; the rows of a value without a reducer.
#[derive(Clone, Copy)]
pub enum One {
    Used(usize),
    Stopped(usize),
}

// The rows of all vectors; the rows of a value without a reducer.
#[derive(Clone, Copy)]
pub enum Lifted {
    Rows(usize),
    Stopped(usize),
}

// All divided to zero; the number of the frame term where division stopped, and the rows of the value there.
#[derive(Clone, Copy)]
pub enum Accepted {
    Yes,
    Stopped(usize, usize),
}
