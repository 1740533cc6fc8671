// Theorems only: what holds of every open, whatever is lent.
