//! The things that all threads of a round share.

use crate::lease_lock::LeaseLock;
use crate::means::Means;
use crate::settings::Settings;
use cards::Layout;
use lease_desk::Desk;
use std::alloc::Global;

/// The things that all threads of a round share.
pub(crate) struct Crew<'a, S, G, C> {
    pub(crate) alloc: Global,
    pub(crate) desk: &'a Desk,
    /// The deals of the boards, by their numbers.
    pub(crate) deals: &'a [Option<Layout>],
    pub(crate) settings: Settings,
    pub(crate) means: Means<'a, S, G, C>,
    pub(crate) lease_lock: &'a LeaseLock,
}

impl<S, G, C> Drop for Crew<'_, S, G, C> {
    fn drop(self) {
        let Crew {
            alloc: _,
            desk: _,
            deals: _,
            settings: _,
            means: _,
            lease_lock: _,
        } = self;
    }
}
