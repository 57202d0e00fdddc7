// Every call of the library on numbers alone, for hosts in C or Rust and for programs that compare, fuzz or measure it;
// the static library `probe_c` exports them, as include/probe.h declares. The record is four words (current, the run mark, the oldest
// open version, and one that stays), the answer's numbers go into eight, a saved block into 512 bytes, and each of these is written
// whole.
#![tactic(auto)]

ghost use Rattle.std.specs.Prelude.{◌≡◌, []};
ghost use Rattle.calls.specs.Calls.{open_session, begin, commit, read_slot, read_key, roll_up, put, delete, roll_back, save_header, save_block, load_header, load_block};
ghost use Rattle.probe.specs.Probed.{lent, out_after, table_after, record_after, block_after};

mod lent;
mod numbers;
mod records;

// open: current
pub fn probe_open(record_words: &[i64; 4], out: &mut [i64; 8])
    ensures { out.new ≡ out_after open_session (lent [] record_words.now []) }
{
    numbers::put_answer(out, reader::open(records::version_of(record_words)));
}

// begin: the run's number
pub fn probe_begin(record_words: &mut [i64; 4], out: &mut [i64; 8])
    ensures out_after { out.new ≡ out_after begin (lent [] record_words.old []) }
    ensures record_words_after { record_words.new ≡ record_after begin record_words.old (lent [] record_words.old []) }
{
    let turned = lent::begun(records::version_of(record_words));
    records::keep_record(record_words, turned.versions);
    numbers::put_answer(out, turned.answer);
}

// commit: the new current
pub fn probe_commit(record_words: &mut [i64; 4], out: &mut [i64; 8])
    ensures out_after { out.new ≡ out_after commit (lent [] record_words.old []) }
    ensures record_words_after { record_words.new ≡ record_after commit record_words.old (lent [] record_words.old []) }
{
    let turned = lent::committed(records::version_of(record_words));
    records::keep_record(record_words, turned.versions);
    numbers::put_answer(out, turned.answer);
}

// read a slot: mark 1 and the row, or zeros
pub fn probe_read_slot(
    table: &[i64],
    record_words: &[i64; 4],
    session: i64,
    slot: usize,
    out: &mut [i64; 8],
)
    ensures { out.new ≡ out_after (read_slot session slot) (lent table.now record_words.now []) }
{
    numbers::put_answer(
        out,
        reader::read_slot(table, records::version_of(record_words), session, slot),
    );
}

// read a key: mark 1 and the row, or zeros
pub fn probe_read_key(
    table: &[i64],
    record_words: &[i64; 4],
    session: i64,
    key1: i64,
    key2: i64,
    out: &mut [i64; 8],
)
    ensures { out.new ≡ out_after (read_key session key1 key2) (lent table.now record_words.now []) }
{
    numbers::put_answer(
        out,
        reader::read_key(
            table,
            records::version_of(record_words),
            session,
            key1,
            key2,
        ),
    );
}

// roll-up: rows, rows that reported total one, rows that reported total two, sum one, sum two
pub fn probe_roll_up(
    table: &[i64],
    record_words: &[i64; 4],
    session: i64,
    key1: i64,
    out: &mut [i64; 8],
)
    ensures { out.new ≡ out_after (roll_up session key1) (lent table.now record_words.now []) }
{
    numbers::put_answer(
        out,
        reader::roll_up(table, records::version_of(record_words), session, key1),
    );
}

// put: the slot
pub fn probe_put(
    table: &mut [i64],
    record_words: &[i64; 4],
    key1: i64,
    key2: i64,
    total1: i64,
    total2: i64,
    out: &mut [i64; 8],
)
    ensures out_after { out.new ≡ out_after (put key1 key2 total1 total2) (lent table.old record_words.now []) }
    ensures table_after { table.new ≡ table_after (put key1 key2 total1 total2) (lent table.old record_words.now []) }
{
    numbers::put_answer(
        out,
        reader::put(
            table,
            records::version_of(record_words),
            key1,
            key2,
            total1,
            total2,
        ),
    );
}

// delete: the slot
pub fn probe_delete(
    table: &mut [i64],
    record_words: &[i64; 4],
    key1: i64,
    key2: i64,
    out: &mut [i64; 8],
)
    ensures out_after { out.new ≡ out_after (delete key1 key2) (lent table.old record_words.now []) }
    ensures table_after { table.new ≡ table_after (delete key1 key2) (lent table.old record_words.now []) }
{
    numbers::put_answer(
        out,
        reader::delete(table, records::version_of(record_words), key1, key2),
    );
}

// roll back: current
pub fn probe_roll_back(table: &mut [i64], record_words: &mut [i64; 4], out: &mut [i64; 8])
    ensures out_after { out.new ≡ out_after roll_back (lent table.old record_words.old []) }
    ensures table_after { table.new ≡ table_after roll_back (lent table.old record_words.old []) }
    ensures record_words_after { record_words.new ≡ record_after roll_back record_words.old (lent table.old record_words.old []) }
{
    let mut versions = records::version_of(record_words);
    let answer = reader::roll_back(table, &mut versions);
    records::keep_record(record_words, versions);
    numbers::put_answer(out, answer);
}

// save header: block 0
pub fn probe_save_header(
    table: &[i64],
    record_words: &[i64; 4],
    block: &mut [u8; 512],
    out: &mut [i64; 8],
)
    ensures out_after { out.new ≡ out_after save_header (lent table.now record_words.now block.old) }
    ensures block_after { block.new ≡ block_after save_header (lent table.now record_words.now block.old) }
{
    let saved = reader::save_header(table, records::version_of(record_words));
    let bytes = saved.block;
    *block = bytes;
    numbers::put_answer(out, saved.answer);
}

// save block: block k from 1
pub fn probe_save_block(
    table: &[i64],
    record_words: &[i64; 4],
    number: usize,
    block: &mut [u8; 512],
    out: &mut [i64; 8],
)
    ensures out_after { out.new ≡ out_after (save_block number) (lent table.now record_words.now block.old) }
    ensures block_after { block.new ≡ block_after (save_block number) (lent table.now record_words.now block.old) }
{
    let saved = reader::save_block(table, records::version_of(record_words), number);
    let bytes = saved.block;
    *block = bytes;
    numbers::put_answer(out, saved.answer);
}

// load header: slots, current, oldest
pub fn probe_load_header(block: &[u8], out: &mut [i64; 8])
    ensures { out.new ≡ out_after (load_header block.now) (lent [] [] []) }
{
    numbers::put_answer(out, reader::load_header(block));
}

// load block: its slots
pub fn probe_load_block(
    table: &mut [i64],
    record_words: &[i64; 4],
    number: usize,
    block: &[u8],
    out: &mut [i64; 8],
)
    ensures out_after { out.new ≡ out_after (load_block number block.now) (lent table.old record_words.now []) }
    ensures table_after { table.new ≡ table_after (load_block number block.now) (lent table.old record_words.now []) }
{
    numbers::put_answer(
        out,
        reader::load_block(table, records::version_of(record_words), number, block),
    );
}
