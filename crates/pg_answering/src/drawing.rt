//! Runs of `posgame-draw` that print pictures and books.
ghost use Rattle.std.specs.Prelude.{map, string_bytes};
ghost use Rattle.pg_answering.specs.Machine.{told_by};
ghost use Rattle.pg_answering.specs.Drawing.{Draws, DrawsPicture, PrintsBook, sheet_of};

use crate::machine::Machine;
use pg_binding::{BookOrder, bind};
use pg_captions::Look;
use pg_drawing::draw;
use std::alloc::Global;

/// Prints the picture that the words ask for.
fn print_picture(alloc: Global, words: &[String], machine: &mut Machine) -> u8
    ensures { DrawsPicture (map string_bytes words.now)
        (told_by machine.old) (told_by machine.new) result }
{
    draw(
        alloc,
        words,
        Look::whole(),
        &mut machine.files,
        &mut machine.console,
    )
}

/// Prints the book of the certificate under the second name, for the game under the first.
fn print_book(alloc: Global, game: &str, certificate: &str, machine: &mut Machine) -> u8
    ensures { PrintsBook game.now certificate.now
        (told_by machine.old) (told_by machine.new) result }
{
    let order = BookOrder {
        game,
        certificate,
        layout: None,
        depth: None,
    };
    bind(alloc, order, &mut machine.files, &mut machine.console)
}

/// Runs `posgame-draw` with these arguments on the machine, and returns the status: `--book GAME
/// CERT` prints a book, as `bind` of `pg_binding` does, and any other words a picture, as `draw` of
/// `pg_drawing` reads them, without options.
pub fn run_draw(alloc: Global, arguments: &[String], machine: &mut Machine) -> u8
    ensures { Draws (sheet_of (map string_bytes arguments.now))
        (told_by machine.old) (told_by machine.new) result }
{
    match arguments {
        [word, game, certificate] => {
            if "--book".as_bytes() == word.as_bytes() {
                return print_book(alloc, game, certificate, machine);
            }
            print_picture(alloc, arguments, machine)
        }
        [_, _, _, _, ..] => print_picture(alloc, arguments, machine),
        _ => print_picture(alloc, arguments, machine),
    }
}
