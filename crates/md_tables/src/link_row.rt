/// A row of a link's table: the number that stands in its link column, and the row's own.
#[derive(Clone, Copy, Drop)]
pub struct LinkRow {
    pub number: u32,
    pub rid: u32,
}
