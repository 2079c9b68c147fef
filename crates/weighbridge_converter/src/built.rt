//! By which kit the program was proved, and of which sources it was made. The launcher `./weighbridge-converter` writes both here, in its own copy
//! of this file, before it proves and builds the program; in a program that was built in another way these words stand.

/// The line by which `rt version` names the kit.
pub(crate) const KIT: &str = "a kit that isn't named, since ./weighbridge didn't build it";

/// SHA-256 over the sources of all crates.
pub(crate) const SOURCES: &str = "not counted, since ./weighbridge didn't build it";
