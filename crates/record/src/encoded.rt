ghost use Rattle.std.specs.Prelude.{◌≡◌, ◌≤◌, take};

// An encoded record: its first len bytes, in an array of the longest one's size, since there is no heap.
// `order::Order` and `lines::Buffer` are such arrays too, but share only `as_slice`: this one is made at once, an order by a search
// and a buffer by appending, so one generic type for the three would be for that one method.
#[derive(Clone, Copy)]
pub struct Encoded {
    pub bytes: [u8; 8],
    pub len: usize,
    ghost within: { len ≤ 8 },
}

impl Encoded {
    pub fn as_slice(&self) -> &[u8]
        ensures { result.now ≡ take self.now.len self.now.bytes }
    {
        &self.bytes[..self.len]
    }
}
