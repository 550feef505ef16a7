// What is printed of a line.

ghost use Rattle.std.specs.Prelude.{◌≡◌, ◌≤◌, Some, ◌==◌, length, not};
ghost use Rattle.std.specs.List.{prefix_len};
ghost use Rattle.listing.specs.Texts.{layer_text, unpadded, name_text, line_text};

use crate::fault::Layer;
use crate::line::Line;
use ranking::Name;
use std::fmt;

impl fmt::Display for Layer {
    ghost output = { λ layer. Some (layer_text layer) };

    fn fmt<W: fmt::Write>(&self, f: &mut fmt::Formatter<W>) -> fmt::Result {
        match self {
            Layer::File => f.write_str("FILE"),
            Layer::Curve => f.write_str("CURVE"),
            Layer::Auction => f.write_str("AUCTION"),
        }
    }
}

// How many bytes stand before the first space.
fn unpadded_len(name: &[u8]) -> usize
    ensures value { result ≡ prefix_len (λ b. not (b == 32)) name.now }
    ensures within { result ≤ length name.now }
{
    name.iter().take_while(|&&byte| byte != b' ').count()
}

// A name as it is printed, without its padding.
#[derive(Clone, Copy)]
struct Unpadded {
    name: Name,
}

impl Unpadded {
    // The bytes before the first space.
    fn bytes(&self) -> &[u8]
        ensures { result.now ≡ unpadded self.now.name }
    {
        &self.name[..unpadded_len(&self.name)]
    }
}

impl fmt::Display for Unpadded {
    ghost output = { λ text. Some (name_text text.name) };

    fn fmt<W: fmt::Write>(&self, f: &mut fmt::Formatter<W>) -> fmt::Result {
        for &byte in self.bytes() {
            f.write_char(char::from(byte))?;
        }
        Ok(())
    }
}

impl fmt::Display for Line {
    ghost output = { λ line. Some (line_text line) };

    fn fmt<W: fmt::Write>(&self, f: &mut fmt::Formatter<W>) -> fmt::Result {
        match *self {
            Line::Round {
                round,
                cap,
                floor,
                capacity_in,
                demand,
            } => write!(
                f,
                "ROUND {round} CAP {cap} FLOOR {floor} IN {capacity_in} DEMAND {demand}"
            ),
            Line::Refused { question, place } => write!(f, "REFUSED {question} WORD {place}"),
            Line::Cleared { price, ground } => write!(
                f,
                "CLEARED {price} GROUND {}",
                u32::from(ground)
            ),
            Line::Award {
                name,
                capacity,
                years,
            } => write!(f, "AWARD {} {capacity} {years}", Unpadded { name }),
            Line::Fault {
                layer,
                question,
                place,
            } => write!(f, "FAULT {layer} {question} WORD {place}"),
            Line::Unsettled => f.write_str("UNSETTLED"),
        }
    }
}
