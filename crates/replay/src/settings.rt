// Reads a configuration from a line.
use crate::lines::Fields;
use cstructs::{CConfiguration, CSignature};
use field::Domain;
use layout::{ENTRIES_MAX, Entry, Layout, MemoryOffset};

fn read_domain(fields: &mut Fields<'_>) -> Domain {
    Domain {
        kind: fields.low(),
        block_size: fields.low(),
        guard_type: fields.low(),
        reference_tag: fields.low(),
        seed: fields.low(),
        application_tag: fields.low(),
        flags: fields.low(),
        edition: fields.low(),
    }
}

fn read_entry(fields: &mut Fields<'_>) -> Entry {
    Entry {
        start: MemoryOffset::new(fields.number()),
        count: fields.low(),
        skip: fields.low(),
    }
}

fn empty_entry() -> Entry {
    Entry {
        start: MemoryOffset::new(0),
        count: 0,
        skip: 0,
    }
}

// Reads how many entries follow, and these. Those that the line does not give are empty.
fn read_entries(fields: &mut Fields<'_>) -> [Entry; ENTRIES_MAX] {
    let given = fields.length(ENTRIES_MAX);
    let mut entries = [empty_entry(); ENTRIES_MAX];
    for entry in &mut entries[..given] {
        *entry = read_entry(fields);
    }
    entries
}

fn read_layout(fields: &mut Fields<'_>) -> Layout {
    let used = fields.low();
    let repeat = fields.low();
    Layout {
        entries: read_entries(fields),
        used,
        repeat,
    }
}

fn read_signature(fields: &mut Fields<'_>) -> CSignature {
    CSignature {
        memory: read_domain(fields),
        wire: read_domain(fields),
        attribute_flags: fields.low(),
        check_mask: fields.low(),
        copy_mask: fields.low(),
        spare: 0,
    }
}

// Reads the configuration of a line that calls configure: the fields after the memory's length, in the order of the
// structs, but for the numbers of a layout, which stand before its entries.
pub(crate) fn read_configuration(fields: &mut Fields<'_>) -> CConfiguration {
    let signature = read_signature(fields);
    let layout = read_layout(fields);
    CConfiguration { layout, signature }
}
