// How a list of crews ends.

// `Option<usize>` has this shape, but no plainer: its `None` would not say that more crews follow.
/// How a list of crews ends: after that many crews, or with more of them to come.
#[derive(Clone, Copy, PartialEq, Eq, Debug)]
pub enum Tail {
    End(usize),
    More,
}
