// What the plain warehouse replies to the commands of worked rows, by its one call for all commands.
mod limits;
mod pins;
mod replies;
mod rows;
mod schemas;
mod trial;
