//! Defines three stories: campaigns with too few generals. Every decision rule breaks IC1 or IC2 in at least one of
//! them.
ghost use Rattle.std.specs.Prelude.{◌≡◌, ◌<◌, ◌≤◌, true, false, None, Some};
ghost use Rattle.bounds.specs.Stories.{copy_in, is_traitor_in, lying_group, story_messages, story_numbered, story_order};

use crate::group::{crossings, group_of, is_crossing};
use label::Label;

/// One of three campaigns with too few generals, cut out of a ring that has two copies of each of three groups.
#[derive(Clone, Copy)]
pub enum Story {
    /// Group 2 lies. The commander is loyal and orders 0.
    First,
    /// Group 0 lies, with the commander in it.
    Second,
    /// Group 1 lies. The commander is loyal and orders 1.
    Third,
}

impl Story {
    /// Returns the story with the number `1`, `2` or `3`. Returns `None` for any other word.
    pub fn numbered(word: &[u8]) -> Option<Story>
        ensures { result ≡ story_numbered word.now }
    {
        if word == "1".as_bytes() {
            Some(Story::First)
        } else if word == "2".as_bytes() {
            Some(Story::Second)
        } else if word == "3".as_bytes() {
            Some(Story::Third)
        } else {
            None
        }
    }

    /// Checks whether the general, who must be below 13, is a traitor in the story.
    pub fn is_traitor(self, commander: u8, general: u8) -> bool
        requires { general < 13 }
        ensures { result ≡ is_traitor_in self commander general }
    {
        group_of(commander, general) == self.lying_group()
    }

    /// Returns the order, 0 or 1, that the label's last general sends to the receiver. The receiver must be below 13.
    pub fn sent(self, commander: u8, label: &Label, receiver: u8) -> u32
        requires { receiver < 13 }
        ensures { Some result ≡ story_messages self commander label.now receiver }
    {
        let generals = label.generals();
        let last = generals[generals.len() - 1];
        let sender = group_of(commander, last);
        let crossed = crossings(commander, generals);
        if sender == self.lying_group() {
            let own = group_of(commander, receiver);
            let more = u32::from(is_crossing(sender, own));
            (self.copy(own) + crossed + more) % 2
        } else {
            (self.copy(sender) + crossed) % 2
        }
    }

    /// Returns the order on which the loyal lieutenants must decide by IC2: the order of the commander. Returns
    /// `None` if he is a traitor.
    pub(crate) fn obeyed_order(self, commander: u8) -> Option<u32>
        requires { commander < 13 }
        ensures traitor { is_traitor_in self commander commander ≡ true → result ≡ None }
        ensures loyal { is_traitor_in self commander commander ≡ false → result ≡ Some (story_order self) }
    {
        if self.is_traitor(commander, commander) {
            None
        } else {
            Some(self.copy(0))
        }
    }

    /// Returns the number of the group that lies in the story.
    fn lying_group(self) -> u8
        ensures { result ≡ lying_group self }
    {
        match self {
            Story::First => 2,
            Story::Second => 0,
            Story::Third => 1,
        }
    }

    /// Returns which copy of itself in the ring a loyal group plays in the story: 0 or 1.
    fn copy(self, group: u8) -> u32
        ensures value { result ≡ copy_in self group }
        ensures small { result ≤ 1 }
    {
        match self {
            Story::First | Story::Second => 0,
            Story::Third => u32::from(group == 0),
        }
    }
}
