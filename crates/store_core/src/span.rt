ghost use Rattle.std.specs.Prelude.{◌≡◌, ◌-◌, ◌≤◌, List, length};
ghost use Rattle.definitions.specs.Items.{Item};
ghost use Rattle.store_core.specs.Stores.{span};

/// A part of a list: what stands from one place on and before another, counted from 0. A place past the list's end
/// stands for the end.
#[derive(Clone, Copy, Debug)]
pub struct Span {
    /// The place of the first element.
    pub from: usize,
    /// The place after the last one.
    pub to: usize,
}

impl Span {
    /// How many elements there are, if the list has so many.
    pub fn len(&self) -> usize
        ensures { result ≡ self.now.to - self.now.from }
    {
        self.to.saturating_sub(self.from)
    }

    /// The same part of a list of so many elements, without places past its end.
    pub fn fitted(self, count: usize) -> Span
        ensures order { result.from ≤ result.to }
        ensures end { result.to ≤ count }
        ensures same { (A : List Item) → length A ≡ count → span result.from result.to A ≡ span self.from self.to A }
    {
        let to = self.to.min(count);
        Span {
            from: self.from.min(to),
            to,
        }
    }
}
