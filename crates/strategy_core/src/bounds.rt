/// What stands between the parts that a range is cut into.
#[derive(Clone, Copy, Debug, PartialEq, Eq)]
pub enum Bounds {
    /// The own item that a part begins with.
    Items,
    /// The shortest bound that leaves the same own items on both sides.
    Short,
}
