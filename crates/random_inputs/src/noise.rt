// Fills a buffer with noise, so that what a call leaves as it was shows.
pub fn fill_noise(buffer: &mut [u16], from: u16) {
    let mut noise = from;
    for number in buffer {
        noise = noise.wrapping_add(40503);
        *number = noise;
    }
}
