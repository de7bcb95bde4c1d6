mod crowded;
mod hiring;
mod lives;
mod owned;
mod pair;
