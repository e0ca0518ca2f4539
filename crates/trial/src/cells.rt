// A slice at any index: past its end it reads as 0, and a write there changes nothing.

pub fn get<T: Copy + Default>(s: &[T], i: usize) -> T {
    s.get(i).copied().unwrap_or_default()
}

pub fn put<T: Copy>(s: &mut [T], i: usize, v: T) {
    if let Some(place) = s.get_mut(i) {
        *place = v;
    }
}
