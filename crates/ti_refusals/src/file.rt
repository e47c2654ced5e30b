// What is wrong with a file: of a bad slot, whose it is.
use bad_slots::BadSlot;
use edition::{Edition, Kind, Place};
use entry::FileRefusal;
use ti_common::{complain, complain_number};

// Room for a capability's name.
const NAME_ROOM: usize = 28;

fn is_known(edition: Edition, kind: Kind, place: Place) -> bool {
    match kind {
        Kind::Boolean => place.0 < edition.booleans,
        Kind::Number => place.0 < edition.numbers,
        Kind::String => place.0 < edition.strings,
    }
}

fn complain_name(rt: HostRuntime, kind: Kind, place: Place) {
    let mut name = [0u8; NAME_ROOM];
    let n = show_names::put_named(&mut name, kind, place, b"");
    complain(rt, &name[..n]);
}

// Says whose slot it is: the capability's name, if the edition knows it and it has one, else the place in the list.
fn complain_place(rt: HostRuntime, edition: Edition, kind: Kind, place: Place) {
    if is_known(edition, kind, place) && names::name_of(kind, place).is_some() {
        complain(rt, b" of ");
        complain_name(rt, kind, place);
    } else {
        complain(rt, b" ");
        complain_number(rt, place.0);
    }
}

fn complain_list(rt: HostRuntime, kind: Kind) {
    match kind {
        Kind::Boolean => complain(rt, b"boolean"),
        Kind::Number => complain(rt, b"number slot"),
        Kind::String => complain(rt, b"string slot"),
    }
}

// Says which byte or slot is bad.
fn complain_slot(rt: HostRuntime, file: &[u8], edition: Edition, why: FileRefusal) {
    match bad_slots::slot_at(file, why) {
        None => complain(rt, b"a slot"),
        Some(BadSlot::Pad) => complain(rt, b"the pad byte"),
        Some(BadSlot::Slot(kind, place)) => {
            complain_list(rt, kind);
            complain_place(rt, edition, kind, place);
        }
    }
}

// What is wrong with a boolean or the pad.
fn complain_boolean(rt: HostRuntime, file: &[u8], why: FileRefusal) {
    match bad_slots::slot_at(file, why) {
        None => complain(rt, b" is bad"),
        Some(BadSlot::Pad) => complain(rt, b" is not 0"),
        Some(BadSlot::Slot(_, _)) => complain(rt, b" is none of 0, 1 and 254"),
    }
}

// What is wrong with the string slot at a position.
fn complain_offset(rt: HostRuntime, file: &[u8], at: usize) {
    if bad_slots::holds_offset(file, at) {
        complain(
            rt,
            b" is an offset with no NUL at or after it in the string table",
        );
    } else {
        complain(rt, b" is no offset into the string table");
    }
}

pub fn complain_file(rt: HostRuntime, file: &[u8], edition: Edition, why: FileRefusal) {
    match why {
        FileRefusal::Length => {
            complain(
                rt,
                b"wrong length: a file has 12 to 4,096 bytes, as many as its header says",
            )
        }
        FileRefusal::Magic => complain(
            rt,
            b"the first short is not 282, the mark of compiled entries",
        ),
        FileRefusal::Counts => {
            complain(
                rt,
                b"a size in the header is out of range: names 2 to 128, others at most 32,767",
            )
        }
        FileRefusal::Names(_) => complain(rt, b"the names do not end in their only NUL"),
        FileRefusal::Boolean(_) => {
            complain_slot(rt, file, edition, why);
            complain_boolean(rt, file, why);
        }
        FileRefusal::Number(_) => {
            complain_slot(rt, file, edition, why);
            complain(rt, b" is above 32,767 and neither absent nor cancelled");
        }
        FileRefusal::Slot(at) => {
            complain_slot(rt, file, edition, why);
            complain_offset(rt, file, at);
        }
    }
}
