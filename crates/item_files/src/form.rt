/// How items stand in a file, and how they are printed.
#[derive(Clone, Copy, Debug, PartialEq, Eq)]
pub enum ItemForm {
    /// As hex digits.
    Hex,
    /// As they are, or as hex digits after `0x`.
    Text,
    /// As any lines: an item is the SHA-256 digest of its line, or is spelled by hex digits after `0x`.
    Hash,
}
