// Settles the records on standard input on a fresh ledger of 64 wallets, 128 escrows, 128 receipts and 512 journal rows. A line for each:
// its ordinal, the answer, the word. Then the granted total. A read or a write that fails ends the program, and is told on standard error.
#![tactic(auto)]

ghost use Rattle.std.specs.Prelude.{◌≤◌, IfOk};

use rules::Answer;
use rules::limits::{
    ESCROW_LEN, GRANTED, HEADER_LEN, JOURNAL_LEN, RECEIPT_LEN, RECORD_BYTES, WALLET_LEN,
};
use std::io;
use std::io::{ErrorKind, Read};

const WALLET_WORDS: usize = 64 * WALLET_LEN;

const ESCROW_WORDS: usize = 128 * ESCROW_LEN;

const RECEIPT_WORDS: usize = 128 * RECEIPT_LEN;

const JOURNAL_WORDS: usize = 512 * JOURNAL_LEN;

// The program's ledger. Its memory is fixed, and nothing is allocated.
#[derive(Drop)]
struct OwnTables {
    header: [u64; HEADER_LEN],
    wallets: [u64; WALLET_WORDS],
    escrows: [u64; ESCROW_WORDS],
    receipts: [u64; RECEIPT_WORDS],
    journal: [u64; JOURNAL_WORDS],
}

impl OwnTables {
    fn start(&mut self) {
        // the lengths are right, so nothing is refused
        let _ = ledger::fresh(
            &mut self.header,
            &mut self.wallets,
            &mut self.escrows,
            &mut self.receipts,
            &mut self.journal,
        );
    }

    fn submit(&mut self, bytes: &[u8]) -> Answer {
        Answer::from(ledger::submit(
            &mut self.header,
            &mut self.wallets,
            &mut self.escrows,
            &mut self.receipts,
            &mut self.journal,
            bytes,
        ))
    }
}

// The program prints no answer elsewhere, so the two numbers are written here.
fn line(rt: &impl Print, ordinal: u64, answer: Answer) -> io::Result<()> {
    println!(rt; "{ordinal} {} {}", answer.number, answer.word)
}

// Reads until the buffer is full or the input ends, and says how many bytes it has read. A read that was interrupted is tried again. The turns are
// counted, so that the loop is seen to end; the buffer is of fixed length, and nothing is allocated.
fn read_full(input: &mut impl Read, buffer: &mut [u8; RECORD_BYTES]) -> io::Result<usize>
    ensures { IfOk result (λ n. n ≤ 108) }
{
    let mut n: usize = 0;
    for _ in 0..u64::MAX {
        if n == RECORD_BYTES {
            break;
        }
        match input.read(&mut buffer[n..]) {
            Ok(0) => break,
            Ok(more) => n += more,
            Err(error) if error.kind() == ErrorKind::Interrupted => {},
            Err(error) => return Err(error),
        }
    }
    Ok(n)
}

// One record: reads it, submits it and writes its line. True if the input may go on. A short last piece is submitted as it is: not being
// 108 bytes long, it is answered 3.
fn step(
    rt: &impl Print,
    input: &mut impl Read,
    ordinal: u64,
    tables: &mut OwnTables,
) -> io::Result<bool> {
    let mut buffer = [0u8; RECORD_BYTES];
    let n = read_full(input, &mut buffer)?;
    if n == 0 {
        return Ok(false);
    }
    line(rt, ordinal, tables.submit(&buffer[..n]))?;
    Ok(n == RECORD_BYTES)
}

// Every record of the input. The ordinal counts the turns, so that the loop is seen to end.
fn run(rt: &(impl Print + Input), tables: &mut OwnTables) -> io::Result<()> {
    let mut input = rt.reader();
    for ordinal in 1..u64::MAX {
        if !step(rt, &mut input, ordinal, tables)? {
            break;
        }
    }
    Ok(())
}

fn main(rt: HostRuntime) -> io::Result<()> {
    let mut tables = OwnTables {
        header: [0; HEADER_LEN],
        wallets: [0; WALLET_WORDS],
        escrows: [0; ESCROW_WORDS],
        receipts: [0; RECEIPT_WORDS],
        journal: [0; JOURNAL_WORDS],
    };
    tables.start();
    run(&rt, &mut tables)?;
    let granted = tables.header[GRANTED];
    println!(rt; "total {granted}")
}
