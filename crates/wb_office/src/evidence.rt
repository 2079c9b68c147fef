//! The evidence on which a weighing or void under a new key is judged.
use crate::judging::WeighingRequest;
use wb_scale::{Indicated, TareNow};
use wb_store::Overview;

/// The scale's part of the evidence.
#[derive(Clone, Copy, Debug, Drop)]
pub(crate) struct OfScale {
    pub(crate) indicated: Indicated,
    pub(crate) tare: TareNow,
    /// Whether the bridge was cleared since the last stored weighing.
    pub(crate) is_cleared: bool,
}

/// A request, and what the setup, the scale and the journal say of it.
#[derive(Debug, Drop)]
pub(crate) struct Evidence {
    pub(crate) asked: WeighingRequest,
    /// The places of the journal.
    pub(crate) capacity: u32,
    pub(crate) scale: OfScale,
    pub(crate) journal: Overview,
}
