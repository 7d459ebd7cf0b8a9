// A card's day in two stores: each line of input is a step or a question, and both stores answer it.
#![tactic(auto)]

mod reasons;
mod texts;

use card_lines::{Command, Kind, command_in};
use reasons::UnlawfulPart;
use std::io;
use stores::{
    CardReader, CardStore, ImageStore, PlainStore, Step, StoreFault, copy_card, take_step,
    whole_card,
};
use texts::{Given, Hex};
use vocabulary::Refusal;

fn tell(rt: &HostRuntime, store: Kind, answer: Result<(), StoreFault>) -> io::Result<()> {
    match answer {
        Ok(()) => println!(rt; "{store}: done"),
        Err(fault) => println!(rt; "{store}: {}", Refusal::from(fault)),
    }
}

// What any store that can be asked answers; it is not touched.
fn show<R: CardReader>(rt: &HostRuntime, store: Kind, reader: &R) -> io::Result<()> {
    match whole_card(reader) {
        Ok(card) => println!(rt; "{store}: {}", Given(card)),
        Err(fault) => println!(rt; "{store}: {}", Refusal::from(fault)),
    }
}

#[derive(Clone, Copy)]
struct Stores {
    plain: PlainStore,
    image: ImageStore,
}

// Each octet in turn is one more than it was, and FF becomes 00.
fn damage(rt: &HostRuntime, store: ImageStore) -> io::Result<()> {
    for (at, octet) in store.octets.iter().enumerate() {
        let mut octets = store.octets;
        octets[at] = octet.wrapping_add(1);
        match whole_card(&ImageStore { octets }) {
            Ok(card) => println!(rt; "octet {at}: {}", Given(card))?,
            Err(_) => println!(rt; "octet {at}: empty")?,
        }
    }
    Ok(())
}

impl Stores {
    fn take(&mut self, rt: &HostRuntime, steps: &[Step]) -> io::Result<()> {
        for step in steps {
            tell(rt, Kind::Plain, take_step(&mut self.plain, step))?;
            tell(rt, Kind::Image, take_step(&mut self.image, step))?;
        }
        Ok(())
    }

    fn copy_into(&mut self, rt: &HostRuntime, kind: Kind) -> io::Result<()> {
        match kind {
            Kind::Plain => tell(rt, Kind::Plain, copy_card(&self.image, &mut self.plain)),
            Kind::Image => tell(rt, Kind::Image, copy_card(&self.plain, &mut self.image)),
        }
    }

    fn run(&mut self, rt: &HostRuntime, command: &Command) -> io::Result<()> {
        match command {
            Command::Blank => Ok(()),
            Command::Steps(steps) => self.take(rt, steps.as_slice()),
            Command::Show => {
                show(rt, Kind::Plain, &self.plain)?;
                show(rt, Kind::Image, &self.image)?;
                println!(rt; "octets: {}", Hex(self.image.octets))
            }
            Command::Octets(octets) => {
                self.image = ImageStore { octets: *octets };
                show(rt, Kind::Image, &self.image)
            }
            Command::CopyInto(kind) => self.copy_into(rt, *kind),
            Command::Damage => damage(rt, self.image),
            Command::Refused(fault) => {
                println!(rt; "{} {}", Refusal::from(*fault), UnlawfulPart(*fault))
            }
            Command::Bad(reason) => println!(rt; "bad line: {reason}"),
        }
    }
}

fn main(rt: HostRuntime) -> io::Result<()> {
    let heap = rt.alloc();
    let mut stores = Stores {
        plain: PlainStore { card: None },
        image: ImageStore::empty(),
    };
    for line in rt.lines(heap) {
        let text = line?;
        let command = command_in(heap, text.as_str())?;
        if !matches!(command, Command::Blank) {
            println!(rt; "> {text}")?;
        }
        stores.run(&rt, &command)?;
    }
    Ok(())
}
