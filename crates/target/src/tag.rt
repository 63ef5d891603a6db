// Target port transfer tags.
ghost use Rattle.std.specs.Prelude.{◌≡◌, ◌≤◌};
ghost use Rattle.target.specs.Tag.{lowest, used};

// The lowest number from 0 that is not in use: the tags given since a store under `under` are 0, 1, 2, .. without that
// one.
#[tactic(auto, unfolding(status::specs::Pick::pick), using(crate::proofs::Lowest::new_tag))]
pub(crate) fn new_tag(stored: bool, under: u16, since: u16) -> u16
    requires { since ≤ 16 }
    ensures { result ≡ lowest (used stored under since) }
{
    if stored & (under <= since) {
        since + 1
    } else {
        since
    }
}
