// A store over two banks, which makes any call of a script. The bank that is not in use is the spare of each Begin.
use crate::keepers::Keeper;

mod calling;

// Which of the two banks is the working or old one. The banks stay where they are: to exchange them by value would move all that they hold.
#[derive(Clone, Copy, PartialEq, Eq, Debug)]
pub enum InUse {
    First,
    Second,
}

pub struct Rig<A, B> {
    keeper: Keeper,
    first: A,
    second: B,
    in_use: InUse,
}
