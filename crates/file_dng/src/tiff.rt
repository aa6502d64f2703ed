// TIFF 6.0 structure with the low bytes first: header, first directory, the fields of its entries and their values. No function asks where
// in the file anything stands: a byte past the end counts as 0, and tests of their own say what lies outside.
pub mod bytes;
pub mod directory;
pub mod fields;

// An entry of a directory: tag, type, count of values, and where its last four bytes stand.
#[derive(Clone, Copy)]
pub struct Entry {
    pub tag: usize,
    pub kind: usize,
    pub count: usize,
    pub at: usize,
}

// What a reader takes for a tag: one of two types, and the count.
#[derive(Clone, Copy)]
pub struct Wanted {
    pub tag: usize,
    pub kind: usize,
    pub other: usize,
    pub count: usize,
}

// The values of an entry: the bytes of each, 0 where there is no entry, and where the first stands.
#[derive(Clone, Copy)]
pub struct Field {
    pub size: usize,
    pub at: usize,
}
