//! The flags of a search ([MS-OXCFOLD] 2.2.1.4.1).
ghost use Rattle.std.specs.Prelude.{◌≡◌, ◌<◌};
ghost use Rattle.search_obj.specs.Flags.{are_allowed, flags_in, flags_of, has_bit, number_of_flags, one_if, state_of};

/// How a search is done. The flags of indices are kept and change nothing.
#[derive(Clone, Copy, Debug, PartialEq, Eq)]
pub struct SearchFlags {
    /// The list stays as it is.
    pub stop: bool,
    /// The list is built anew, as it is without `stop` in any case.
    pub restart: bool,
    /// The folders below those of the scope are searched too.
    pub recursive: bool,
    /// They aren't, as without `recursive` in any case.
    pub shallow: bool,
    pub content_indexed: bool,
    pub non_content_indexed: bool,
    /// The list is built once, and then stays as it is.
    pub static_search: bool,
}

/// What a search with criteria does as messages change.
#[derive(Clone, Copy, Debug, PartialEq, Eq)]
pub enum SearchState {
    /// Its list follows them.
    Running,
    /// Its list was built, and stays.
    Static,
    /// Its list stays.
    Stopped,
}

/// 1 for a flag that stands.
fn one_if(stands: bool) -> u32
    ensures { result ≡ one_if stands }
{
    if stands { 1 } else { 0 }
}

/// Whether the flag with this bit stands in a number.
fn has_bit(bit: u32, number: u32) -> bool
    requires { 0 < bit }
    ensures { result ≡ has_bit bit number }
{
    number / bit % 2 == 1
}

impl SearchFlags {
    /// The flags whose bits stand in a number, whatever else stands there.
    #[tactic(auto, unfolding(crate::specs::Flags::flags_in))]
    fn within(number: u32) -> SearchFlags
        ensures { result ≡ flags_in number }
    {
        SearchFlags {
            stop: has_bit(1, number),
            restart: has_bit(2, number),
            recursive: has_bit(4, number),
            shallow: has_bit(8, number),
            content_indexed: has_bit(0x10000, number),
            non_content_indexed: has_bit(0x20000, number),
            static_search: has_bit(0x40000, number),
        }
    }

    /// The number of the flags: the bits of those that stand.
    #[tactic(auto, unfolding(crate::specs::Flags::number_of_flags))]
    pub fn number(self) -> u32
        ensures { result ≡ number_of_flags self }
    {
        one_if(self.stop)
            + 2 * one_if(self.restart)
            + 4 * one_if(self.recursive)
            + 8 * one_if(self.shallow)
            + 0x10000 * one_if(self.content_indexed)
            + 0x20000 * one_if(self.non_content_indexed)
            + 0x40000 * one_if(self.static_search)
    }

    /// Whether a search may have these flags: it isn't stopped and restarted at once, nor recursive and shallow.
    #[tactic(auto, unfolding(crate::specs::Flags::are_allowed))]
    pub fn are_allowed(self) -> bool
        ensures { result ≡ are_allowed self }
    {
        !(self.stop && self.restart) && !(self.recursive && self.shallow)
    }

    /// The flags with this number. None exactly where a search may not have them: the number has other bits, or the flags don't stand together.
    #[tactic(auto, unfolding(crate::specs::Flags::flags_of))]
    pub fn from_number(number: u32) -> Option<SearchFlags>
        ensures { result ≡ flags_of number }
    {
        let flags = SearchFlags::within(number);
        if flags.number() == number && flags.are_allowed() {
            Some(flags)
        } else {
            None
        }
    }

    /// What a search with these flags does as messages change: it is stopped, or else static, or else running.
    #[tactic(auto, unfolding(crate::specs::Flags::state_of))]
    pub fn state(self) -> SearchState
        ensures { result ≡ state_of self }
    {
        if self.stop {
            SearchState::Stopped
        } else if self.static_search {
            SearchState::Static
        } else {
            SearchState::Running
        }
    }
}
