//! Calls of ocp_seats, on a book and its seats.

use crate::answers::show_all;
use crate::runs::Runs;
use crate::{engines, views};
use driver_lines::*;
use ocp_seats::{Book, Engine, Naming, NotClosed, Seat};

/// A book, its seats in the order of their numbers, the tickets and works of its lines, and the
/// engine that it gave back.
#[derive(Drop)]
pub(crate) struct Seats<L: Naming> {
    book: Option<Book<L>>,
    seats: Vec<Option<Seat<L>>>,
    runs: Runs,
    closed: Option<Engine>,
}

impl<L: Naming> Seats<L> {
    pub fn new(alloc: Global, book: Book<L>) -> Self {
        Seats {
            book: Some(book),
            seats: Vec::new(alloc),
            runs: Runs::new(alloc),
            closed: None,
        }
    }

    /// The engine, if the book was closed.
    pub fn into_engine(self) -> Option<Engine> {
        self.closed
    }

    fn book(&mut self) -> Result<&mut Book<L>, Fault> {
        self.book.as_mut().ok_or(Fault::Syntax)
    }

    /// The answer of a call of the book, or of one of its seats.
    fn text(&mut self, alloc: Global, words: &[&str]) -> Answer {
        calls! { alloc, words;
            "ocp_seats.seat" -> "number" => self.add_seat(alloc);
            "ocp_seats.seat_count" -> "number" => text_of(alloc, self.book()?.seat_count());
            "ocp_seats.take" -> "the ticket's number, its procedure" => {
                match self.book()?.take(alloc) {
                    Ok(ticket) => self.runs.add_ticket(alloc, ticket),
                    Err(fault) => name_of(alloc, fault),
                }
            };
            "ocp_seats.receipts" seat -> "entries, with their marks" => {
                let seat = place_of(&mut self.seats, seat)?.as_ref().ok_or(Fault::Syntax)?;
                show_all(alloc, seat.receipts())
            };
            "ocp_seats.close" [seats] -> "`Ok`, or why not" => self.close(alloc, seats);
            else self.engine_text(alloc, words)
        }
    }

    /// The answer of a call that changes the engine by the book, or shows something of it.
    fn engine_text(&mut self, alloc: Global, words: &[&str]) -> Answer {
        let book = self.book.as_mut().ok_or(Fault::Syntax)?;
        match *words {
            [name, seat, ..] if name.starts_with("ocp_seats.") => {
                let seat = place_of(&mut self.seats, seat)?
                    .as_mut()
                    .ok_or(Fault::Syntax)?;
                engines::answer(book, seat, &mut self.runs, alloc, words)
            }
            _ => views::answer(book.engine(), &mut self.runs, alloc, words),
        }
    }

    /// Adds the next seat, and shows its number.
    fn add_seat(&mut self, alloc: Global) -> Answer {
        match self.book()?.seat(alloc) {
            Ok(seat) => {
                let number = seat.number();
                self.seats.push(Some(seat))?;
                text_of(alloc, number)
            }
            Err(fault) => name_of(alloc, fault),
        }
    }

    /// Closes the book with the seats of these numbers.
    fn close(&mut self, alloc: Global, numbers: &[&str]) -> Answer {
        let seats = take_seats(alloc, &mut self.seats, numbers)?;
        let Some(book) = self.book.take() else {
            return Err(Fault::Syntax);
        };
        match book.close(seats) {
            Ok(engine) => {
                self.closed = Some(engine);
                text_of(alloc, "Ok")
            }
            Err(refused) => self.stay_open(alloc, refused),
        }
    }

    /// Takes the book and the seats back.
    fn stay_open(&mut self, alloc: Global, refused: NotClosed<L>) -> Answer {
        let NotClosed { why, book, seats } = refused;
        self.book = Some(book);
        for seat in seats {
            put_seat(&mut self.seats, seat);
        }
        name_of(alloc, why)
    }
}

impl<L: Naming> Calls for Seats<L> {
    fn answer(&mut self, alloc: Global, words: &[&str]) -> Result<Reply, Fault> {
        let text = self.text(alloc, words)?;
        Ok(if self.closed.is_some() {
            Reply::Last(text)
        } else {
            Reply::Text(text)
        })
    }
}

/// Puts a seat back in its place.
fn put_seat<L: Naming>(seats: &mut [Option<Seat<L>>], seat: Seat<L>) {
    let index = usize::from(seat.number()).saturating_sub(1);
    if let Some(place) = seats.get_mut(index) {
        *place = Some(seat);
    }
}

/// The seats with these numbers, once.
fn take_seats<L: Naming>(
    alloc: Global,
    seats: &mut [Option<Seat<L>>],
    numbers: &[&str],
) -> Result<Vec<Seat<L>>, Fault> {
    let mut all = Vec::new(alloc);
    for number in numbers {
        let seat = place_of(seats, number)?.take().ok_or(Fault::Syntax)?;
        all.push(seat)?;
    }
    Ok(all)
}

/// The place of the seat with a number.
fn place_of<'a, L: Naming>(
    seats: &'a mut [Option<Seat<L>>],
    word: &str,
) -> Result<&'a mut Option<Seat<L>>, Fault> {
    let index = number_of::<usize>(word)?
        .checked_sub(1)
        .ok_or(Fault::Syntax)?;
    seats.get_mut(index).ok_or(Fault::Syntax)
}
