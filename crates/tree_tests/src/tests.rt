mod places;
mod stops;
mod worlds;
