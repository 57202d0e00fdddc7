// The exports for hosts in C and Rust, which include/probe.h declares: each calls the function of its name of the crate `probe`, and
// says its clauses again. A static library can be named by no crate, so the functions themselves stand there.
#![tactic(auto)]

ghost use Rattle.std.specs.Prelude.{◌≡◌, []};
ghost use Rattle.calls.specs.Calls.{open_session, begin, commit, read_slot, read_key, roll_up, put, delete, roll_back, save_header, save_block, load_header, load_block};
ghost use Rattle.probe.specs.Probed.{lent, out_after, table_after, record_after, block_after};

// open: current
#[unsafe(no_mangle)]
pub extern "C" fn probe_open(record_words: &[i64; 4], out: &mut [i64; 8])
    ensures { out.new ≡ out_after open_session (lent [] record_words.now []) }
{
    probe::probe_open(record_words, out);
}

// begin: the run's number
#[unsafe(no_mangle)]
pub extern "C" fn probe_begin(record_words: &mut [i64; 4], out: &mut [i64; 8])
    ensures out_after { out.new ≡ out_after begin (lent [] record_words.old []) }
    ensures record_words_after { record_words.new ≡ record_after begin record_words.old (lent [] record_words.old []) }
{
    probe::probe_begin(record_words, out);
}

// commit: the new current
#[unsafe(no_mangle)]
pub extern "C" fn probe_commit(record_words: &mut [i64; 4], out: &mut [i64; 8])
    ensures out_after { out.new ≡ out_after commit (lent [] record_words.old []) }
    ensures record_words_after { record_words.new ≡ record_after commit record_words.old (lent [] record_words.old []) }
{
    probe::probe_commit(record_words, out);
}

// read a slot: mark 1 and the row, or zeros
#[unsafe(no_mangle)]
pub extern "C" fn probe_read_slot(
    table: &[i64],
    record_words: &[i64; 4],
    session: i64,
    slot: usize,
    out: &mut [i64; 8],
)
    ensures { out.new ≡ out_after (read_slot session slot) (lent table.now record_words.now []) }
{
    probe::probe_read_slot(table, record_words, session, slot, out);
}

// read a key: mark 1 and the row, or zeros
#[unsafe(no_mangle)]
pub extern "C" fn probe_read_key(
    table: &[i64],
    record_words: &[i64; 4],
    session: i64,
    key1: i64,
    key2: i64,
    out: &mut [i64; 8],
)
    ensures { out.new ≡ out_after (read_key session key1 key2) (lent table.now record_words.now []) }
{
    probe::probe_read_key(table, record_words, session, key1, key2, out);
}

// roll-up: rows, rows that reported total one, rows that reported total two, sum one, sum two
#[unsafe(no_mangle)]
pub extern "C" fn probe_roll_up(
    table: &[i64],
    record_words: &[i64; 4],
    session: i64,
    key1: i64,
    out: &mut [i64; 8],
)
    ensures { out.new ≡ out_after (roll_up session key1) (lent table.now record_words.now []) }
{
    probe::probe_roll_up(table, record_words, session, key1, out);
}

// put: the slot
#[unsafe(no_mangle)]
pub extern "C" fn probe_put(
    table: &mut [i64],
    record_words: &[i64; 4],
    key1: i64,
    key2: i64,
    total1: i64,
    total2: i64,
    out: &mut [i64; 8],
)
    ensures out_after { out.new ≡ out_after (put key1 key2 total1 total2) (lent table.old record_words.now []) }
    ensures table_after { table.new ≡ table_after (put key1 key2 total1 total2) (lent table.old record_words.now []) }
{
    probe::probe_put(table, record_words, key1, key2, total1, total2, out);
}

// delete: the slot
#[unsafe(no_mangle)]
pub extern "C" fn probe_delete(
    table: &mut [i64],
    record_words: &[i64; 4],
    key1: i64,
    key2: i64,
    out: &mut [i64; 8],
)
    ensures out_after { out.new ≡ out_after (delete key1 key2) (lent table.old record_words.now []) }
    ensures table_after { table.new ≡ table_after (delete key1 key2) (lent table.old record_words.now []) }
{
    probe::probe_delete(table, record_words, key1, key2, out);
}

// roll back: current
#[unsafe(no_mangle)]
pub extern "C" fn probe_roll_back(
    table: &mut [i64],
    record_words: &mut [i64; 4],
    out: &mut [i64; 8],
)
    ensures out_after { out.new ≡ out_after roll_back (lent table.old record_words.old []) }
    ensures table_after { table.new ≡ table_after roll_back (lent table.old record_words.old []) }
    ensures record_words_after { record_words.new ≡ record_after roll_back record_words.old (lent table.old record_words.old []) }
{
    probe::probe_roll_back(table, record_words, out);
}

// save header: block 0
#[unsafe(no_mangle)]
pub extern "C" fn probe_save_header(
    table: &[i64],
    record_words: &[i64; 4],
    block: &mut [u8; 512],
    out: &mut [i64; 8],
)
    ensures out_after { out.new ≡ out_after save_header (lent table.now record_words.now block.old) }
    ensures block_after { block.new ≡ block_after save_header (lent table.now record_words.now block.old) }
{
    probe::probe_save_header(table, record_words, block, out);
}

// save block: block k from 1
#[unsafe(no_mangle)]
pub extern "C" fn probe_save_block(
    table: &[i64],
    record_words: &[i64; 4],
    number: usize,
    block: &mut [u8; 512],
    out: &mut [i64; 8],
)
    ensures out_after { out.new ≡ out_after (save_block number) (lent table.now record_words.now block.old) }
    ensures block_after { block.new ≡ block_after (save_block number) (lent table.now record_words.now block.old) }
{
    probe::probe_save_block(table, record_words, number, block, out);
}

// load header: slots, current, oldest
#[unsafe(no_mangle)]
pub extern "C" fn probe_load_header(block: &[u8], out: &mut [i64; 8])
    ensures { out.new ≡ out_after (load_header block.now) (lent [] [] []) }
{
    probe::probe_load_header(block, out);
}

// load block: its slots
#[unsafe(no_mangle)]
pub extern "C" fn probe_load_block(
    table: &mut [i64],
    record_words: &[i64; 4],
    number: usize,
    block: &[u8],
    out: &mut [i64; 8],
)
    ensures out_after { out.new ≡ out_after (load_block number block.now) (lent table.old record_words.now []) }
    ensures table_after { table.new ≡ table_after (load_block number block.now) (lent table.old record_words.now []) }
{
    probe::probe_load_block(table, record_words, number, block, out);
}
