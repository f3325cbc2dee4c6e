// What is asked of a plan under edition 2.

// The listing after forcing.
pub fn list(text: &[u8]) {
    let mut out = io::buffer();
    let n = round_listing::write_listing_2(text, &mut out);
    io::write_all(1, &out[..n]);
}

// The listing of a plan as sent.
pub fn test(text: &[u8]) {
    let mut out = io::buffer();
    let n = round_listing::write_test_2(text, &mut out);
    io::write_all(1, &out[..n]);
}

// The plan as changed.
pub fn apply(text: &[u8]) {
    let mut out = io::buffer();
    match round_changer::write_changed_2(text, &mut out, 0) {
        Ok(end) => {
            io::write_all(1, &out[..end]);
        }
        Err(stop) => super::refuse(stop.why.number, stop.why.place, stop.passes),
    }
}
