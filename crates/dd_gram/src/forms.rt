/// Four whole numbers, by rows.
#[derive(Debug, Clone, Copy, PartialEq, Eq)]
pub struct Matrix {
    pub xx: i64,
    pub xy: i64,
    pub yx: i64,
    pub yy: i64,
}

/// A symmetric matrix, which has `a` and `c` on its diagonal and `b` beside it.
#[derive(Debug, Clone, Copy, PartialEq, Eq)]
pub struct Gram {
    pub a: i128,
    pub b: i128,
    pub c: i128,
}
