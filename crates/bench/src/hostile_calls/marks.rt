//! Prints the lines before and after a call. A line that cannot be printed is not reported here, but a reader of the
//! output misses it.

/// Prints the line `ready`, which comes before a call.
pub fn ready<R: Print>(rt: &R) {
    let _ = rt.println("ready");
}

/// Prints the line `back`, which comes after a call.
pub fn back<R: Print>(rt: &R) {
    let _ = rt.println("back");
}
