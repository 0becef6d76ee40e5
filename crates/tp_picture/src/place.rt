/// Where an entry is drawn: its number, its column from 0, and its row from 1.
#[derive(Clone, Copy, Debug, PartialEq, Eq)]
pub struct Place {
    pub entry: u64,
    pub column: usize,
    pub row: usize,
}
