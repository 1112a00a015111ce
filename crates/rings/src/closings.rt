// The shortest ways back to a group.
ghost use Rattle.std.specs.Prelude.{◌<◌};

// So many arrows lead back to a group, one at least, and this is the lowest group on such a way. Of two the one of fewer arrows is the lower, and of two
// of as many the one with the lower group.
#[derive(Clone, Copy, PartialEq, Eq, PartialOrd, Ord)]
pub struct Closing {
    pub arrows: u16,
    pub group: u16,
    ghost some_lead: { 0 < arrows },
}
