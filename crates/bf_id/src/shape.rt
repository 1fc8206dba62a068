/// How many root blocks the domain has along each axis.
#[derive(Clone, Copy, Debug, PartialEq, Eq)]
pub struct Shape {
    pub nx: u32,
    pub ny: u32,
    pub nz: u32,
}
