//! A helm with its network.

ghost use Rattle.std.specs.Prelude.{◌≡◌, None};

use crate::helm::Helm;
use crate::helm_end::HelmEnd;
use crate::progress::Progress;
use channel_journal::{ChannelJournal, KeptJournal};
use completion_ticket::Done;
use worker_session::Coming;

/// A helm with its network, and why it has ended, once it was served. It can't be dropped, since a helm can't.
pub struct Stand<B: Done + Drop, W, J: ChannelJournal = KeptJournal> {
    pub helm: Helm<B, J>,
    pub world: W,
    pub end: Option<HelmEnd>,
    /// How far it has come in a serve.
    pub(crate) progress: Progress,
}

impl<B: Done + Drop, W, J: ChannelJournal> Stand<B, W, J> {
    /// A helm with its network, which was not served.
    pub fn new(helm: Helm<B, J>, world: W) -> Stand<B, W, J>
        ensures helm { result.helm ≡ helm }
        ensures world { result.world ≡ world }
        ensures end { result.end ≡ None }
    {
        Stand {
            helm,
            world,
            end: None,
            progress: Progress {
                earlier: 0,
                turns: 0,
                left: 0,
                later: None,
                coming: Coming::UnderWay,
                looked: None,
            },
        }
    }

    /// The helm, its network, and why the helm has ended, once it was served.
    pub fn into_parts(self) -> (Helm<B, J>, W, Option<HelmEnd>)
        ensures { (result.0 ≡ self.helm) × (result.1 ≡ self.world) × (result.2 ≡ self.end) }
    {
        let Stand {
            helm,
            world,
            end,
            progress: _progress,
        } = self;
        (helm, world, end)
    }
}
