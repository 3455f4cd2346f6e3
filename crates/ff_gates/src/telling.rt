//! Entries as lines.
use ff_journal::Entry;
use ff_tables::NoMemory;
use ff_transcript::entry_text;
use std::alloc::Global;

fn is_by(entry: &Entry, viewer: u32) -> bool {
    match entry {
        Entry::Said { viewer: by, .. } => *by == viewer,
        Entry::Published { .. } => false,
    }
}

// The entries of a viewer, each a line.
fn put_viewer(
    alloc: Global,
    text: &mut String,
    journal: &[Entry],
    viewer: u32,
) -> Result<(), NoMemory> {
    for entry in journal {
        if is_by(entry, viewer) {
            text.push_str(entry_text(alloc, entry)?.as_str())?;
        }
    }
    Ok(())
}

/// The entries of the first viewer, and then those of the second, each a line.
pub fn by_viewers(alloc: Global, journal: &[Entry]) -> Result<String, NoMemory> {
    let mut text = String::new(alloc);
    for viewer in 0..2 {
        put_viewer(alloc, &mut text, journal, viewer)?;
    }
    Ok(text)
}
