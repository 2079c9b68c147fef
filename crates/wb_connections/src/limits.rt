//! The times, counts and sizes that keep a client from stopping the scale.

/// Maximum number of office connections that are open at once. More wait in the listener. A weighbridge has a handful of programs that
/// ask it. At ten turns a second fifty requests are answered before they are too old, and 64 of full size stay below 600 kB.
pub(crate) const CONNECTIONS: usize = 64;

/// After so many seconds without a byte, a connection of the office is taken as one that sends no more. A program sends its
/// request at once, so five seconds are for a slow machine.
pub(crate) const SILENT_SECONDS: u64 = 5;

/// So many seconds after it was accepted, a request is judged as it stands. One that sends a byte now and then is never silent,
/// so twice that time bounds how long it keeps its place.
pub(crate) const WHOLE_WITHIN_SECONDS: u64 = 10;

/// A response is dropped if its socket takes no byte for so many seconds. The system's buffers open again in steps of some
/// 100 kB, so a client that reads 4 kB a second or more is never dropped.
pub(crate) const UNTAKEN_SECONDS: u64 = 30;

/// A response is dropped too if it wasn't taken whole within as many seconds as above, and one more for each so many bytes of it: a client
/// that takes less would keep its place, and the memory of its response, from others for as long as it likes. The whole journal of 97,000
/// entries, 25 MB, may take seven minutes.
pub(crate) const BYTES_A_SECOND: usize = 65_536;

/// A response of no more bytes goes into its socket at once: the system keeps room for as many.
pub(crate) const SHORT_RESPONSE: usize = 16_384;

/// How many responses wait for their clients while a longer one than that is begun. So four slow exports at most are kept at once, and a fifth
/// asks again.
pub(crate) const WAITING_RESPONSES: usize = 4;

/// After its response, a connection is read to its end for so many seconds at most. Closed over bytes that nobody read it would
/// send a reset, and the client could lose its answer; one that never closes keeps its place no longer than a silent one.
pub(crate) const LEAVING_SECONDS: u64 = 5;

/// The terminal is hung up if its socket takes no byte for so many seconds while replies wait: replies that old are of no use
/// to who reads them.
pub(crate) const DEAF_SECONDS: u64 = 5;

/// What the terminal sent is carried out within so many seconds of when it may have come, or never: by then another vehicle may stand on
/// the bridge. A turn over a silent converter takes one second, so that with one second no command would ever be carried out there.
pub(crate) const COMMAND_SECONDS: u64 = 2;

/// A request of the office is handed out within so many seconds of when it may have been whole, or never. Ten turns a second answer fifty
/// by then; who waits longer asks again, and is judged by what stands on the bridge then.
pub(crate) const REQUEST_SECONDS: u64 = 5;

/// How many terminals wait while one is served: a bridge has a display, a haulier's computer and a service laptop, and one more.
pub(crate) const WAITING_TERMINALS: usize = 4;

/// A terminal that said nothing for so many seconds is hung up if another waits, so that nobody holds the scale for ever.
pub(crate) const IDLE_SECONDS: u64 = 60;

/// How often a listener is asked in a turn at most: more than the 128 that a listener of std lets wait.
pub(crate) const ACCEPTS_A_TURN: usize = 160;

/// How many bytes of replies wait for the terminal at most: more than 2,500 replies. The room is made at the start, so that a
/// reply never wants memory.
pub(crate) const WAITING_REPLIES: usize = 65_536;

/// For so many seconds at most, what waits for clients is still written at the end. A client that reads has it long before.
pub const FINISH_SECONDS: u64 = 5;

/// A reading holds for so many seconds after its line came: then a line that still waits is old, and is dropped, and a converter that
/// sent no whole line since hands in a lost reading. The slowest converters send twice a second, so a second without a line is a
/// fault, and nobody is shown an older weight.
pub const FRESH_SECONDS: u64 = 1;

/// A wait for the converter is broken off after so many milliseconds, to see that nothing came. What is found by the next look came
/// since, so the age of a line is known to that.
pub const LOOK_MILLIS: u64 = 50;

/// A converter that is connected to answers at once, or within so many seconds.
pub(crate) const CONNECT_SECONDS: u64 = 3;

/// For so many milliseconds, a device or a client that has nothing now is left alone, and so is one that takes no more of its response.
/// At 200 looks a second a line is read at once, and the processor does next to nothing.
pub const PAUSE_MILLIS: u64 = 5;

/// The most bytes of a converter's line without its end; a longer one is a lost reading.
pub(crate) const LINE: usize = 20;

/// So many bytes of a converter without the end of a line are a fault.
pub const ENDLESS_LINE: usize = 1_048_576;

/// How often a connection is read in a turn at most: once for a request, once for the end behind it, and twice for a request in
/// pieces. More would let one client that sends without end hold up a turn.
pub(crate) const READS_A_TURN: usize = 4;
