// `orders`: the map played by hand, and its board drawn.
ghost use Rattle.std.specs.Prelude.{◌≡◌, ◌<◌, List, [], ◌∷◌, ◌++◌, map, pos, IfOk, decimal, OnOk};
ghost use Rattle.std.specs.Fmt.{signed_decimal};
ghost use Rattle.script.specs.Lines.{lines_of};
ghost use Rattle.map.specs.Boards.{holder_of};
ghost use Rattle.map.specs.Maps.{map_board};
ghost use Rattle.map.specs.Pieces.{stand_of};
ghost use Rattle.console.specs.Boards.{order_text, answers_from, board_on, mark, mark_of, column_text, cells_from, grid_from, visible, piece_text, legend_from, heading, board_text, orders_text};
ghost use Rattle.console.specs.Pages.{Adds};

use crate::page::Page;
use host::Host;
use map::{Map, Piece, Square};
use script::Lines;
use std::alloc::{AllocError, Global};

fn write_order(page: &mut Page, order: &[u8], code: i32) -> Result<(), AllocError>
    ensures { OnOk result (Adds page.old page.new (order_text order.now code)) }
{
    page.push(order)?;
    writeln!(page, " = {code}")
}

// Gives each line of `orders` to the map, and writes it with its code.
fn write_answers(page: &mut Page, map: &mut Map, orders: &[u8]) -> Result<(), AllocError>
    ensures { OnOk result (Adds page.old page.new (answers_from (map_board map.old) (lines_of orders.now)) × (map_board map.new ≡ board_on (map_board map.old) (lines_of orders.now))) }
{
    for order in Lines::new(orders) {
        let code = map.issue(b"", order);
        write_order(page, order, code)?;
    }
    Ok(())
}

// A to Z, then a to f.
fn mark_of(i: usize) -> u8
    requires { i < 32 }
    ensures { result ≡ mark i }
{
    if i < 26 {
        b'A' + i as u8
    } else {
        b'a' + (i - 26) as u8
    }
}

fn write_cell(page: &mut Page, map: &Map, row: u8, column: u8) -> Result<(), AllocError>
    ensures { OnOk result (Adds page.old page.new (32 ∷ 32 ∷ mark_of (holder_of (pos row) (pos column) (map_board map.now)) ∷ [])) }
{
    let mark = map.holder(Square { row, column }).map_or(b'.', mark_of);
    page.push(&[b' ', b' ', mark])
}

fn write_column(page: &mut Page, n: u8) -> Result<(), AllocError>
    ensures { OnOk result (Adds page.old page.new (column_text n)) }
{
    let blanks = if n < 10 { "  " } else { " " };
    write!(page, "{blanks}{n}")
}

fn write_cells(page: &mut Page, map: &Map, row: u8) -> Result<(), AllocError>
    ensures { OnOk result (Adds page.old page.new (cells_from (map_board map.now) row 1 12)) }
{
    for column in 1..13 {
        write_cell(page, map, row, column)?;
    }
    Ok(())
}

fn write_grid_row(page: &mut Page, map: &Map, row: u8) -> Result<(), AllocError>
    ensures { OnOk result (Adds page.old page.new (column_text row ++ cells_from (map_board map.now) row 1 12 ++ 10 ∷ [])) }
{
    write_column(page, row)?;
    write_cells(page, map, row)?;
    page.push(b"\n")
}

#[tactic(auto, using(crate::proofs::Drawing::row_more))]
fn write_grid(page: &mut Page, map: &Map) -> Result<(), AllocError>
    ensures { OnOk result (Adds page.old page.new (grid_from (map_board map.now) 1 12)) }
{
    for row in 1..13 {
        write_grid_row(page, map, row)?;
    }
    Ok(())
}

fn visible_byte(b: u8) -> u8
    ensures { result ≡ visible b }
{
    if b.is_ascii_graphic() { b } else { b'?' }
}

fn write_visible(page: &mut Page, name: &[u8]) -> Result<(), AllocError>
    ensures { OnOk result (Adds page.old page.new (map visible name.now)) }
{
    for b in name {
        page.push(&[visible_byte(*b)])?;
    }
    Ok(())
}

fn write_piece(page: &mut Page, i: usize, piece: &Piece) -> Result<(), AllocError>
    requires { i < 32 }
    ensures { OnOk result (Adds page.old page.new (piece_text i (stand_of piece.now))) }
{
    let Piece { name, square } = piece;
    let Square { row, column } = square;
    page.push(&[mark_of(i), b' '])?;
    write_visible(page, name.as_slice())?;
    writeln!(page, " {row} {column}")
}

fn write_legend(page: &mut Page, map: &Map) -> Result<(), AllocError>
    ensures { OnOk result (Adds page.old page.new (legend_from 0 (map_board map.now))) }
{
    for (i, piece) in map.pieces().iter().enumerate() {
        write_piece(page, i, piece)?;
    }
    Ok(())
}

// The board as a grid, and its pieces below.
fn write_board(page: &mut Page, map: &Map) -> Result<(), AllocError>
    ensures { OnOk result (Adds page.old page.new (board_text (map_board map.now))) }
{
    page.push(b"     1  2  3  4  5  6  7  8  9 10 11 12\n")?;
    write_grid(page, map)?;
    write_legend(page, map)
}

// Each line of `input` as an order to a new map, with its code; then the board.
pub fn orders(heap: Global, input: &[u8]) -> Result<Vec<u8>, AllocError>
    ensures { IfOk result (λ v. v.items ≡ orders_text (lines_of input.now)) }
{
    let mut page = Page::new(heap);
    let mut map = Map::new();
    write_answers(&mut page, &mut map, input)?;
    write_board(&mut page, &map)?;
    Ok(page.into_bytes())
}
