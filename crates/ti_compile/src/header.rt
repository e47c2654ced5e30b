// What is wrong with a header, or with a line in column 1 that is none.
use text::TextRefusal;
use ti_common::complain;
use ti_common::output::complain_quoted;

// Says what is refused at the text's first byte: its first header, that it has none, or the name that is wanted.
pub fn complain_first(rt: HostRuntime, why: TextRefusal, name: &[u8]) {
    match why {
        TextRefusal::Malformed => complain(rt, b"the header is malformed, or there is none"),
        TextRefusal::Limit => complain(
            rt,
            b"an alias is longer than 14 bytes, or all names than 127",
        ),
        TextRefusal::NotFound => {
            complain(rt, b"nothing is named ");
            complain_quoted(rt, name);
        }
        _ => complain(rt, b"the header"),
    }
}

// Says what is wrong with a later line in column 1.
pub fn complain_later(rt: HostRuntime, why: TextRefusal) {
    match why {
        TextRefusal::Malformed => complain(
            rt,
            b"malformed header, or a field that is not indented",
        ),
        TextRefusal::Limit => {
            complain(
                rt,
                b"an alias is longer than 14 bytes, all names than 127, or this is the 65th header",
            )
        }
        _ => complain(rt, b"the header"),
    }
}
