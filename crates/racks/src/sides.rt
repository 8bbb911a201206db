// Where a unit of a pair stands.
#[derive(Clone, Copy)]
pub enum Side {
    First(u8),
    Second(u8),
}
