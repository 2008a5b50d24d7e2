// The calls of a script, and what they are answered.
use cells::Side;
use store::Sight;

// A call on a store that does not collect. h and g are hands; a call with a side is about the pair that g refers to.
#[derive(Clone, Copy, PartialEq, Eq, Debug)]
pub enum Edit<V> {
    Pair { h: u16 },
    Leaf { h: u16, value: V },
    Copy { h: u16, g: u16 },
    Load { h: u16, g: u16, side: Side },
    Store { g: u16, side: Side, h: u16 },
    Swap { g: u16, side: Side, h: u16 },
    Clear { h: u16 },
    Look { h: u16 },
}

// Any call of a script. The spare of each Begin is the bank that is not in use.
#[derive(Clone, Copy, PartialEq, Eq, Debug)]
pub enum Call<V> {
    Edit(Edit<V>),
    Begin,
    Slice(u32),
    Finish,
    Abandon,
}

// What an accepted call is answered: that it is done, what it sees, that a collection is begun or abandoned, how many steps were
// made, or the cells kept and the marks.
#[derive(Clone, Copy, PartialEq, Eq, Debug)]
pub enum Answer<V> {
    Done,
    Seen(Sight<V>),
    Ready,
    Stepped(u32),
    Kept { kept: u32, marks: u32 },
}
