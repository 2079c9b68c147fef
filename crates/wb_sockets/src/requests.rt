//! How requests are judged, as the station does it.
use std::alloc::{AllocError, Global};
use wb_connections::Requests;
use wb_station::{Judged, Routes};

/// Requests to a station.
#[derive(Drop)]
pub struct StationRequests {
    alloc: Global,
    routes: Routes,
}

impl StationRequests {
    /// By the station's routes. Refuses for want of memory alone.
    pub fn new(alloc: Global) -> Result<Self, AllocError> {
        Ok(StationRequests {
            alloc,
            routes: Routes::new(alloc)?,
        })
    }
}

impl Requests for StationRequests {
    type Request = Judged;

    fn once_whole(&self, bytes: Vec<u8>) -> Result<Judged, Vec<u8>> {
        Judged::once_whole(self.alloc, &self.routes, bytes)
    }

    fn as_it_stands(&self, bytes: Vec<u8>) -> Judged {
        Judged::as_it_stands(self.alloc, &self.routes, bytes)
    }
}
