//! Files that hold no store.
use self::Step::{Adds, Opens, Purges, Removes, Says, Writes};
use super::{FIRST, entry};
use sqlite::Alter;
use std::fs;
use std::os::unix::fs::MetadataExt;
use std::process::Abort;
use std::test::Fail;
use wb_file::JournalFile;
use wb_store::{Store, StoreFault};

const FOLDER: &str = "weighbridge_test";

/// Whether a journal is opened, or made.
fn opens(rt: &HostRuntime, path: &str) -> bool {
    JournalFile::open(rt, path).is_ok()
}

/// What refuses the file, if anything does.
fn refusal(rt: &HostRuntime, path: &str) -> Option<StoreFault> {
    JournalFile::open_copy(rt, path).err()
}

#[test]
fn makes_files_for_their_owner_alone(rt: HostRuntime) -> Result<(), Fail> {
    let folder = "weighbridge_test_modes";
    let _ = fs::remove_dir_all(&rt, folder);
    fs::create_dir(&rt, folder)?;
    let path = "weighbridge_test_modes/journal.db";
    let journal = JournalFile::open(&rt, path)?;
    are_the_owners(&rt, &rt, &[path, "weighbridge_test_modes/journal.db-wal"])?;
    drop(journal);
    fs::remove_dir_all(&rt, folder)?;
    Ok(())
}

fn are_the_owners(abort: &impl Abort, rt: &HostRuntime, files: &[&str]) -> Result<(), Fail> {
    for made in files {
        assert_eq!(abort; fs::metadata(rt, made)?.mode() & 0o777, 0o600, "{made}");
    }
    Ok(())
}

#[test]
fn makes_no_file_that_is_not_there(rt: HostRuntime) -> Result<(), Fail> {
    let _ = fs::remove_dir_all(&rt, FOLDER);
    fs::create_dir(&rt, FOLDER)?;
    let path = "weighbridge_test/journal.db";
    assert_eq!(rt; refusal(&rt, path), Some(StoreFault::Disk));
    assert!(rt; !fs::exists(&rt, path)?);
    assert!(rt; opens(&rt, path));
    fs::remove_file(&rt, "weighbridge_test/journal.db-wal")?;
    fs::remove_file(&rt, "weighbridge_test/journal.db-newest")?;
    assert_eq!(rt; refusal(&rt, path), None);
    assert!(rt; !fs::exists(&rt, "weighbridge_test/journal.db-wal")?);
    assert!(rt; !fs::exists(&rt, "weighbridge_test/journal.db-newest")?);
    fs::write(&rt, "weighbridge_test/note", "r 9170 4\n")?;
    assert_eq!(rt;
        refusal(&rt, "weighbridge_test/note"),
        Some(StoreFault::Disk)
    );
    assert_eq!(rt; refusal(&rt, FOLDER), Some(StoreFault::Disk));
    fs::remove_dir_all(&rt, FOLDER)?;
    Ok(())
}

/// The line of a witness before any entry, and of the first weighing; of another entry 1, of an entry 2, and of a number 1 whose entry was purged.
const OF_NONE: &str =
    "newest 0000000000 0000000000000000000000000000000000000000000000000000000000000000 d932aa1c39ead42faf48cccef1c51b027ac7f609c97befe468d31f1eba5da95e\n";

const OF_FIRST: &str =
    "newest 0000000001 a982a0aaef75f8622de6a96ef3a1d8ddd9de4bd18d9cda420eeb00dfbfcfa68c 8b4e39d200d467e74159d76efc134bc80e60d7eab75a7ddc9f3569659f4330b2\n";

const OF_ANOTHER: &str =
    "newest 0000000001 b3b5f9b7b253a32759e7f7696c8248ad2d85333673358587ad599ef71b8e7d3e e12690b29528240bb94ab4692f808034392d6af5797d828660f5e4dff8e54aa8\n";

const OF_SECOND: &str =
    "newest 0000000002 b3b5f9b7b253a32759e7f7696c8248ad2d85333673358587ad599ef71b8e7d3e 65c4c8f423f9b3f4abb9e0257e40084378f073a9cfbe61ada553ccf130a31738\n";

const OF_PURGED: &str =
    "newest 0000000001 0000000000000000000000000000000000000000000000000000000000000000 530fc0ffabc67fd2e34066a1a97b9c3345040d1dca1bcac4be1e25777f3e20fd\n";

const JOURNAL: &str = "weighbridge_test_witness/journal.db";

const WITNESS: &str = "weighbridge_test_witness/journal.db-newest";

/// What is done beside a journal, or seen.
#[derive(Clone, Copy, Drop)]
enum Step {
    /// The journal is looked at, and then opened to be served, and both are refused or neither is.
    Opens(bool),
    /// The first weighing is added.
    Adds,
    /// All entries are purged.
    Purges,
    /// The witness has this text now.
    Writes(&'static str),
    /// It isn't there any more.
    Removes,
    /// The first of its lines is this one, and the second too.
    Says(&'static str),
}

static STEPS: [Step; 19] = [
    Opens(true),
    Says(OF_NONE),
    Adds,
    Says(OF_NONE),
    // the journal is ahead, as after a kill before the witness was written
    Opens(true),
    Says(OF_FIRST),
    Writes(OF_SECOND),
    Opens(false),
    Says(OF_SECOND),
    Writes(OF_ANOTHER),
    Opens(false),
    // no line is whole, as after a power cut
    Writes("newest"),
    Opens(true),
    Says(OF_FIRST),
    Removes,
    Opens(true),
    Says(OF_FIRST),
    // the number is spent
    Purges,
    Opens(true),
];

fn is_opened(rt: &HostRuntime) -> bool {
    refusal(rt, JOURNAL).is_none() && opens(rt, JOURNAL)
}

fn is_refused(rt: &HostRuntime) -> bool {
    refusal(rt, JOURNAL) == Some(StoreFault::Disk)
        && JournalFile::open(rt, JOURNAL).err() == Some(StoreFault::Disk)
}

fn changes(rt: &HostRuntime, step: &Step) -> Result<bool, Fail> {
    let mut journal = JournalFile::open(rt, JOURNAL)?;
    Ok(is_changed(journal.store(), step))
}

fn is_changed<D: Alter>(store: &mut Store<D>, step: &Step) -> bool {
    match (step, entry(&FIRST)) {
        (Adds, Some(entry)) => store.append(&entry).is_ok(),
        (Purges, _) => store.purge(2) == Ok(1),
        _ => false,
    }
}

fn says(rt: &HostRuntime, line: &str) -> Result<bool, Fail> {
    let text = fs::read_to_string(rt, WITNESS)?;
    Ok(text.as_str().starts_with(line) && text.as_str().ends_with(line))
}

fn is_done(rt: &HostRuntime, step: &Step) -> Result<bool, Fail> {
    match step {
        Opens(true) => Ok(is_opened(rt)),
        Opens(false) => Ok(is_refused(rt)),
        Adds | Purges => changes(rt, step),
        Writes(text) => Ok(fs::write(rt, WITNESS, *text).is_ok()),
        Removes => Ok(fs::remove_file(rt, WITNESS).is_ok()),
        Says(line) => says(rt, line),
    }
}

#[test]
fn refuses_a_journal_behind_its_witness(rt: HostRuntime) -> Result<(), Fail> {
    let folder = "weighbridge_test_witness";
    let _ = fs::remove_dir_all(&rt, folder);
    fs::create_dir(&rt, folder)?;
    assert!(rt; opens(&rt, JOURNAL));
    for (index, step) in STEPS.iter().enumerate() {
        assert!(rt; is_done(&rt, step)?, "step {index}");
    }
    assert!(rt; is_done(&rt, &Says(OF_PURGED))?);
    are_the_owners(&rt, &rt, &[WITNESS])?;
    fs::remove_dir_all(&rt, folder)?;
    Ok(())
}
