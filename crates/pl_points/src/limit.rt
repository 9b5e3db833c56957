/// Which values are outside: those below the least, or those above the most.
#[derive(Clone, Copy, PartialEq, Eq)]
pub enum Limit {
    Below(i64),
    Above(i64),
}
