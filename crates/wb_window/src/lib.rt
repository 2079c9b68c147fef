//! The last readings of a load converter, and whether they are stable.
//!
//! A window keeps the last N readings. It is stable where it has N of them, all are loads and any two differ by at
//! most the stability band. Whatever keeps the readings, a window is seen as the list of them, the newest first. Only
//! making a window takes memory. To tell whether it is stable, a [`RingWindow`] looks at each reading that it keeps, and a
//! [`DequeWindow`] at the greatest and the least of them.
#![tactic(auto)]

mod candidates;
mod deque;
mod queues;
mod reading;
mod ring;
mod window;

pub use deque::DequeWindow;
pub use reading::Reading;
pub use ring::RingWindow;
pub use window::Window;
