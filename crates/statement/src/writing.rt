// The statement's lines, written from a position on. Every function answers the position behind what it wrote.
ghost use Rattle.std.specs.Prelude.{◌≤◌, ◌<◌, ◌^◌, length};
ghost use Rattle.lists.specs.Lists.{sum};
ghost use Rattle.figures.specs.Figures.{Wrote};
ghost use Rattle.statement.specs.Writing.{fields_text, leading, Even, Stateable, Room, Fills};
ghost use Rattle.statement.specs.Statement.{plant_line, plant_lines, total_line, statement_text};
ghost use Rattle.statement.specs.Lengths.{statement_length};
ghost use Rattle.ledger.specs.Ledger.{viewed};

use figures::writing::{write_byte, write_field};
use ledger::{ACCOUNTS, ALLOTTED, LedgerView, MONEY, NET};
use plants::Plant;

// Figures, each with a comma before it.
fn write_fields(figures: &[u64], text: &mut [u8], at: usize) -> usize
    requires { Room (fields_text figures.now) at text.old }
    ensures { Wrote (fields_text figures.now) at text.old text.new result }
{
    let mut end = at;
    for figure in figures {
        end = write_field(*figure, text, end);
    }
    end
}

// How A, T and R lines begin: a letter, two figures, and a list of figures.
pub fn write_leading(
    letter: u8,
    x: u64,
    y: u64,
    figures: &[u64],
    text: &mut [u8],
    at: usize,
) -> usize
    requires { Room (leading letter x y figures.now) at text.old }
    ensures { Wrote (leading letter x y figures.now) at text.old text.new result }
{
    let end = write_byte(letter, text, at);
    let end = write_field(x, text, end);
    let end = write_field(y, text, end);
    write_fields(figures, text, end)
}

// An A line: submarket, number, the row's ledger figures, net, money.
fn write_plant_line(
    plant: &Plant,
    figures: &[u64],
    net: i64,
    money: i64,
    text: &mut [u8],
    at: usize,
) -> usize
    requires { Room (plant_line plant.now figures.now net money) at text.old }
    ensures { Wrote (plant_line plant.now figures.now net money) at text.old text.new result }
{
    let end = write_leading(b'A', plant.submarket, plant.number, figures, text, at);
    let end = write_field(net, text, end);
    let end = write_field(money, text, end);
    write_byte(b'\n', text, end)
}

// The A lines, row by row, by index into the ledger's two lists. Rows and ledger stay two: a struct with `Even` as its fact would be made for one statement.
fn write_plant_lines(plants: &[Plant], ledger: LedgerView<'_>, text: &mut [u8], at: usize) -> usize
    requires even { Even plants.now ledger.allotted.now ledger.accounts.now }
    requires room { Room (plant_lines plants.now ledger.allotted.now ledger.accounts.now) at text.old }
    ensures { Wrote (plant_lines plants.now ledger.entry.allotted.now ledger.entry.accounts.now) at text.old text.new result }
{
    let mut end = at;
    for (i, plant) in plants.iter().enumerate() {
        let figures = &ledger.allotted[ALLOTTED * i..ALLOTTED * (i + 1)];
        let net = ledger.accounts[ACCOUNTS * i + NET];
        let money = ledger.accounts[ACCOUNTS * i + MONEY];
        end = write_plant_line(plant, figures, net, money, text, end);
    }
    end
}

// The T line: periods settled, P, column sums, their sum.
fn write_total_line(settled: u64, plants: u64, columns: &[u64], text: &mut [u8], at: usize) -> usize
    requires columns_bound { sum columns.now < 2 ^ 62 }
    requires room { Room (total_line settled plants columns.now) at text.old }
    ensures { Wrote (total_line settled plants columns.now) at text.old text.new result }
{
    let total = lists::sum_of(columns);
    let end = write_leading(b'T', settled, plants, columns, text, at);
    let end = write_field(total, text, end);
    write_byte(b'\n', text, end)
}

// The statement, to the front of the text. The answer is its length, and the rest of the text stays.
pub fn write_statement(
    settled: u64,
    plants: &[Plant],
    ledger: LedgerView<'_>,
    text: &mut [u8],
) -> usize
    requires stateable { Stateable plants.now (viewed ledger) }
    requires room { statement_length settled plants.now (viewed ledger) ≤ length text.old }
    ensures { Fills (statement_text settled plants.now (viewed ledger.entry)) text.old result text.new }
{
    let columns = ledger::column_sums(ledger.allotted);
    let end = write_plant_lines(plants, ledger, text, 0);
    write_total_line(settled, plants.len() as u64, &columns, text, end)
}
