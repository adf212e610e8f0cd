//! Lists of addresses, and lists of words.

use mail_fields::{
    Address, Mailbox, addresses_named, push_addresses, words_of, written_addresses_are_read,
};
use std::alloc::{AllocError, Global};
use std::test::Fail;

/// Values with their addresses: `[name][route][local part][domain]`, `{` and a group's name, and
/// `}` for its end. Those up to the first comment are RFC 5322's examples (appendix A).
const LISTS: &[(&str, &str)] = &[
    (
        " John Doe <jdoe@machine.example>\r\n",
        "[John Doe][][jdoe][machine.example]",
    ),
    (
        " \"Joe Q. Public\" <john.q.public@example.com>\r\n",
        "[Joe Q. Public][][john.q.public][example.com]",
    ),
    (
        " Mary Smith <mary@x.test>, jdoe@example.org, Who? <one@y.test>\r\n",
        "[Mary Smith][][mary][x.test][][][jdoe][example.org][Who?][][one][y.test]",
    ),
    (
        " <boss@nil.test>, \"Giant; \\\"Big\\\" Box\" <sysservices@example.net>\r\n",
        "[][][boss][nil.test][Giant; \"Big\" Box][][sysservices][example.net]",
    ),
    (
        " A Group:Ed Jones <c@a.test>,joe@where.test,John <jdoe@one.test>;\r\n",
        "{A Group[Ed Jones][][c][a.test][][][joe][where.test][John][][jdoe][one.test]}",
    ),
    (" Undisclosed recipients:;\r\n", "{Undisclosed recipients}"),
    (
        " Pete(A nice \\) chap) <pete(his account)@silly.test(his host)>\r\n",
        "[Pete][][pete][silly.test]",
    ),
    (
        " A Group(Some people)\r\n     :Chris Jones <c@(Chris's host.)public.example>,\r\n         joe@example.org,\r\n  John <jdoe@one.test> (my dear friend); (the end of the group)\r\n",
        "{A Group[Chris Jones][][c][public.example][][][joe][example.org][John][][jdoe][one.test]}",
    ),
    (
        " (Empty list)(start)Hidden recipients  :(nobody(that I know))  ;\r\n",
        "{Hidden recipients}",
    ),
    (
        " Joe Q. Public <john.q.public@example.com>\r\n",
        "[Joe Q. Public][][john.q.public][example.com]",
    ),
    (
        " Mary Smith <@node.test:mary@example.net>, , jdoe@test  . example\r\n",
        "[Mary Smith][@node.test][mary][example.net][][][jdoe][test.example]",
    ),
    // A comment after an address is its name, one before it isn't.
    (
        "jdoe@example.org (John Doe)",
        "[John Doe][][jdoe][example.org]",
    ),
    ("(not a name) jdoe@example.org", "[][][jdoe][example.org]"),
    ("<a@b> (c)", "[c][][a][b]"),
    ("a@b (c) (d)", "[d][][a][b]"),
    ("a@b ( c )", "[c][][a][b]"),
    ("<a@b>(c(d)e)", "[c(d)e][][a][b]"),
    ("a@b (\\))", "[)][][a][b]"),
    ("(x) root", "[][][root][]"),
    // Words without an address: one run is a local part, several are a name.
    ("root", "[][][root][]"),
    ("root (System)", "[System][][root][]"),
    ("a.b.c", "[][][a.b.c][]"),
    ("John Doe", "[John Doe][][][]"),
    ("John Q. Public", "[John Q. Public][][][]"),
    // The last run before an at sign is the local part.
    ("\"john doe\"@x", "[][][john doe][x]"),
    ("John Doe jdoe@x", "[John Doe][][jdoe][x]"),
    ("a . b @ c . d", "[][][a.b][c.d]"),
    ("a@b <c@d>", "[][][c][d]"),
    ("John Doe a@b <c@d>", "[John Doe][][c][d]"),
    ("a@b@c", "[][][a][b]"),
    // Phrases.
    ("\"\" <a@b>", "[][][a][b]"),
    ("a \"\" b <c@d>", "[a b][][c][d]"),
    ("\"a\"b <c@d>", "[ab][][c][d]"),
    ("a\tb <c@d>", "[a b][][c][d]"),
    ("Jörg <j@x>", "[Jörg][][j][x]"),
    // Angle brackets.
    ("<a b@c>", "[][][ab][c]"),
    ("<\"a b\"@c>", "[][][a b][c]"),
    ("<@a,@b:c@d>", "[][@a,@b][c][d]"),
    ("<@a@b>", "[][][][a]"),
    ("<a,b@c>", "[][][a,b][c]"),
    ("<>", "[][][][]"),
    ("<a@b", "[][][a][b]"),
    ("Foo <a@b, Bar <c@d>", "[Foo][][a][b][Bar][][c][d]"),
    ("<a@b;c@d>", "[][][a][b][][][c][d]"),
    // Domains.
    ("a@[127.0.0.1]", "[][][a][[127.0.0.1]]"),
    ("a@[IPv6:::1]", "[][][a][[IPv6:::1]]"),
    ("@b", "[][][][b]"),
    ("a@", "[][][a][]"),
    // Groups.
    ("G: a@b", "{G[][][a][b]}"),
    ("G:a@b;,c@d", "{G[][][a][b]}[][][c][d]"),
    ("G:a:b@c;", "{G[][][a:b][c]}"),
    ("G:;a@b", "{G}[][][a][b]"),
    ("a@b;c@d", "[][][a][b][][][c][d]"),
    (":;:;", "{}{}"),
    // Nothing, and what doesn't end.
    ("", ""),
    (" , ;", ""),
    ("a@b,", "[][][a][b]"),
    ("(a", ""),
    ("a (b", "[b][][a][]"),
    ("a@b (c\\", "[c\\][][a][b]"),
    ("\"a@b", "[][][a@b][]"),
];

/// Values of Content-Language with their words.
const WORDS: &[(&str, &str)] = &[
    (" mi, en\r\n", "mi|en|"),
    (" de", "de|"),
    ("en (English), fr-CA,,de", "en|fr-CA|de|"),
    ("", ""),
    (" , ", ""),
];

/// The addresses of values, in the form of the rows.
fn list_text(alloc: Global, values: &[&[u8]]) -> Result<Vec<u8>, AllocError> {
    let mut addresses = Vec::new(alloc);
    for value in values {
        push_addresses(alloc, value, &mut addresses)?;
    }
    addresses_text(alloc, &addresses)
}

fn addresses_text(alloc: Global, addresses: &[Address]) -> Result<Vec<u8>, AllocError> {
    let mut text = Vec::new(alloc);
    for address in addresses {
        push_address(address, &mut text)?;
    }
    Ok(text)
}

fn push_address(address: &Address, text: &mut Vec<u8>) -> Result<(), AllocError> {
    match address {
        Address::Mailbox(mailbox) => push_mailbox(mailbox, text),
        Address::GroupStart(name) => {
            text.push(b'{')?;
            text.extend_from_slice(name.as_bytes())
        }
        Address::GroupEnd => Ok(text.push(b'}')?),
    }
}

fn push_mailbox(mailbox: &Mailbox, text: &mut Vec<u8>) -> Result<(), AllocError> {
    push_field(mailbox.name.as_bytes(), text)?;
    push_field(mailbox.route.as_bytes(), text)?;
    push_field(mailbox.local_part.as_bytes(), text)?;
    push_field(mailbox.host.as_bytes(), text)
}

fn push_field(field: &[u8], text: &mut Vec<u8>) -> Result<(), AllocError> {
    text.push(b'[')?;
    text.extend_from_slice(field)?;
    Ok(text.push(b']')?)
}

fn words_text(alloc: Global, value: &str) -> Result<Vec<u8>, AllocError> {
    let mut text = Vec::new(alloc);
    for word in &words_of(alloc, value.as_bytes())? {
        text.extend_from_slice(word.as_bytes())?;
        text.push(b'|')?;
    }
    Ok(text)
}

/// The place of the first list that is read differently, if any.
fn first_wrong_list(alloc: Global) -> Result<Option<usize>, AllocError> {
    for place in 0..LISTS.len() {
        let (value, text) = LISTS[place];
        if list_text(alloc, &[value.as_bytes()])?.as_slice() != text.as_bytes() {
            return Ok(Some(place));
        }
    }
    Ok(None)
}

/// The place of the first list of words that is read differently, if any.
fn first_wrong_words(alloc: Global) -> Result<Option<usize>, AllocError> {
    for place in 0..WORDS.len() {
        let (value, text) = WORDS[place];
        if words_text(alloc, value)?.as_slice() != text.as_bytes() {
            return Ok(Some(place));
        }
    }
    Ok(None)
}

#[test]
fn lists_are_read(rt: HostRuntime) -> Result<(), Fail> {
    assert_eq!(rt; first_wrong_list(rt.alloc())?, None);
    Ok(())
}

#[test]
fn several_values_are_one_list(rt: HostRuntime) -> Result<(), Fail> {
    let text = list_text(rt.alloc(), &[b"G: a@b", b"<c@d", b"e@f"])?;
    assert_eq!(rt;
        text.as_slice(),
        b"{G[][][a][b]}[][][c][d][][][e][f]".as_slice()
    );
    Ok(())
}

/// Fields of a header that may be folded, have their name in any case and blanks before the colon
/// (RFC 5322, section 4.5); what follows the empty line is no field.
#[test]
fn fields_of_a_name_are_one_list(rt: HostRuntime) -> Result<(), Fail> {
    let header =
        b"To: a@b\r\nFrom: x@y\r\nTO : G: c@d\r\n\t, e@f\r\nTo\r\nCc: g@h\r\n\r\nTo: z@z\r\n";
    let addresses = addresses_named(rt.alloc(), header, b"to")?;
    assert_eq!(rt;
        addresses_text(rt.alloc(), &addresses)?.as_slice(),
        b"[][][a][b]{G[][][c][d][][][e][f]}".as_slice()
    );
    Ok(())
}

#[test]
fn words_are_read(rt: HostRuntime) -> Result<(), Fail> {
    assert_eq!(rt; first_wrong_words(rt.alloc())?, None);
    Ok(())
}

#[test]
fn address_laws_are_called(_rt: HostRuntime) {
    written_addresses_are_read();
}
