// Fields in keys.
ghost use Rattle.std.specs.Prelude.{◌≡◌, ◌≢◌, ◌++◌, ◌∷◌, [], ℕ, List, IfOk, IfNone, IfSome, OnErr, OnOk, None, Some, All, take};
ghost use Rattle.std.specs.Io.{StartsWith};
ghost use Rattle.aggregate.specs.Spelling.{BeginsWithNone, KeysInOrder, SpellingsAreApart, SpellingsAreReadBack, TakesField, spelled, spelled_byte, spelling, turned_if, unspelled};

use std::alloc::AllocError;

/// Appends the spelling of a field, each byte turned round where `down`. An `Err` changes nothing.
///
/// A zero byte is spelled 0 1, any other as it is, and 0 0 stands at the end.
#[inline(always)]
pub fn put_field(into: &mut Vec<u8>, field: &[u8], down: bool) -> Result<(), AllocError>
    ensures ok { OnOk result (into.new.items ≡ into.old.items ++ spelling field.now down) }
    ensures err { OnErr result (into.new.items ≡ into.old.items) }
{
    let start = into.len();
    let answer = if down || field.contains(&0) {
        put_turned(into, field, down)
    } else {
        put_plain(into, field)
    };
    if answer.is_err() {
        into.truncate(start);
    }
    answer
}

// Appends the spelling of a field that has no zero byte, or some first bytes of it.
#[inline(always)]
fn put_plain(into: &mut Vec<u8>, field: &[u8]) -> Result<(), AllocError>
    requires { All (λ byte. byte ≢ 0) field.now }
    ensures ok { OnOk result (into.new.items ≡ into.old.items ++ spelled field.now) }
    ensures err { OnErr result (StartsWith into.new.items into.old.items) }
{
    into.extend_from_slice(field)?;
    into.extend_from_slice(&[0, 0])
}

// Appends the spelling of any field byte by byte, or some first bytes of it.
fn put_turned(into: &mut Vec<u8>, field: &[u8], down: bool) -> Result<(), AllocError>
    ensures ok { OnOk result (into.new.items ≡ into.old.items ++ spelling field.now down) }
    ensures err { OnErr result (StartsWith into.new.items into.old.items) }
{
    into.reserve(field.len().saturating_add(2))?;
    for byte in field {
        put_spelled(into, *byte, down)?;
    }
    put_byte(into, 0, down)?;
    put_byte(into, 0, down)
}

// Appends what a byte of a field is spelled as, or some of it.
fn put_spelled(into: &mut Vec<u8>, byte: u8, down: bool) -> Result<(), AllocError>
    ensures ok { OnOk result (into.new.items ≡ into.old.items ++ turned_if down (spelled_byte byte)) }
    ensures err { OnErr result (StartsWith into.new.items into.old.items) }
{
    put_byte(into, byte, down)?;
    if byte == 0 {
        return put_byte(into, 1, down);
    }
    Ok(())
}

// Appends a byte, turned round where `down`.
fn put_byte(into: &mut Vec<u8>, byte: u8, down: bool) -> Result<(), AllocError>
    ensures ok { OnOk result (into.new.items ≡ into.old.items ++ turned_if down (byte ∷ [])) }
    ensures err { OnErr result (into.new.items ≡ into.old.items) }
{
    into.push(if down { 255 - byte } else { byte })?;
    Ok(())
}

/// Appends the field whose spelling begins the key, and answers how many bytes the spelling has.
/// `None` comes where no spelling begins the key; it and an `Err` change nothing.
pub fn take_field(key: &[u8], into: &mut Vec<u8>) -> Result<Option<usize>, AllocError>
    ensures some { IfOk result (λ o. IfSome o (TakesField key.now into.old.items into.new.items)) }
    ensures none { IfOk result (λ o. IfNone o (BeginsWithNone key.now)) }
    ensures kept { IfOk result (λ o. IfNone o (into.new.items ≡ into.old.items)) }
    ensures err { OnErr result (into.new.items ≡ into.old.items) }
{
    let start = into.len();
    match take_spelled(key, into) {
        Ok(Some(n)) => Ok(Some(n)),
        Ok(None) => {
            into.truncate(start);
            Ok(None)
        }
        Err(e) => {
            into.truncate(start);
            Err(e)
        }
    }
}

// Appends the field whose spelling begins the key, or some of it.
fn take_spelled(key: &[u8], into: &mut Vec<u8>) -> Result<Option<usize>, AllocError>
    ensures some { IfOk result (λ o. IfSome o (λ n. (field : List ℕ)
        × (unspelled key.now ≡ Some (field, n))
        × (into.new.items ≡ into.old.items ++ field))) }
    ensures none { IfOk result (λ o. IfNone o (unspelled key.now ≡ None)) }
    ensures kept { StartsWith into.new.items into.old.items }
{
    let mut at = 0;
    while at < key.len() {
        let byte = key[at];
        if byte != 0 {
            into.push(byte)?;
            at += 1;
            continue;
        }
        if at + 1 >= key.len() {
            return Ok(None);
        }
        let mark = key[at + 1];
        if mark == 0 {
            return Ok(Some(at + 2));
        }
        if mark != 1 {
            return Ok(None);
        }
        into.push(0)?;
        at += 2;
    }
    Ok(None)
}

/// Keys stand in the order of their fields: what a sorter of bytes gives is sorted by fields.
pub fn keys_in_order()
    ensures { KeysInOrder }
{}

/// A field is read back from its spelling, whatever follows.
pub fn spellings_are_read_back()
    ensures { SpellingsAreReadBack }
{}

/// Equal keys have equal fields and the same behind them, so no field's spelling begins another's.
pub fn spellings_are_apart()
    ensures { SpellingsAreApart }
{}
